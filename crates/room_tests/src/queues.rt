//! The worked queue, and a full one of equal claims. Expected answers are the rule's, by hand.
ghost use Rattle.std.specs.Prelude.{◌≤◌};

use npos_base::{AccountId, List, Score};
use std::alloc::Global;
use std::fmt::Write;
use std::test::Fail;
use submission_queue::{Queue, Submission, laws};

/// Offers, each a number and a claim, and what is told of them where three, four and 16 can wait.
static WORKED: [(u64, u64); 5] = [(1, 40), (2, 39), (3, 38), (4, 38), (4, 41)];

const WORKED_TOLD: &str =
    "in, in, in, 4 behind 38, out 3 12, 3 of 3: 4 41 12, 1 40 12, 2 39 12, 0 left";

static TIES: [(u64, u64); 4] = [(1, 38), (2, 40), (3, 38), (4, 40)];

const TIES_TOLD: &str = "in, in, in, in, 4 of 4: 2 40 12, 4 40 12, 1 38 12, 3 38 12, 0 left";

static EQUAL: [(u64, u64); 17] = [(7, 40); 17];

const EQUAL_TOLD: &str = "in, in, in, in, in, in, in, in, in, in, in, in, in, in, in, in, \
    7 behind 40, 16 of 16: 7 40 12";

fn submission(alloc: Global, number: u64, minimal: u64) -> Submission {
    Submission {
        number,
        who: AccountId { hi: 0, lo: 7 },
        deposit: 12,
        score: Score {
            minimal,
            sum: 100,
            squares: 5200,
        },
        bytes: List::new(alloc),
    }
}

/// What the offers are answered, and what is then taken out, each by number, claim and deposit.
fn told(alloc: Global, max: u32, offers: &[(u64, u64)]) -> Result<String, Fail>
    requires some { 1 ≤ max }
    requires most { max ≤ 16 }
{
    let mut text = String::new(alloc);
    let mut queue = Queue::new(alloc, max)?;
    for &(number, minimal) in offers {
        match queue.offer(submission(alloc, number, minimal)) {
            Ok(None) => write!(text, "in, ")?,
            Ok(Some(out)) => write!(text, "out {} {}, ", out.number, out.deposit)?,
            Err((refusal, back)) => {
                write!(text, "{} behind {}, ", back.number, refusal.worst.minimal)?
            }
        }
    }
    write!(text, "{} of {}", queue.items().len(), queue.max())?;
    for place in 0..max {
        if let Some(best) = queue.take_best() {
            let mark = if place == 0 { ':' } else { ',' };
            write!(
                text,
                "{mark} {} {} {}",
                best.number, best.score.minimal, best.deposit
            )?;
        }
    }
    write!(text, ", {} left", queue.len())?;
    Ok(text)
}

#[test]
fn claims_wait_by_rank(rt: HostRuntime) -> Result<(), Fail> {
    let worked = told(rt.alloc(), 3, &WORKED)?;
    assert_eq!(rt; worked.as_str(), WORKED_TOLD);
    let ties = told(rt.alloc(), 4, &TIES)?;
    assert_eq!(rt; ties.as_str(), TIES_TOLD);
    Ok(())
}

#[test]
fn a_full_queue_refuses_an_equal_claim(rt: HostRuntime) -> Result<(), Fail> {
    let text = told(rt.alloc(), 16, &EQUAL)?;
    assert!(rt; text.as_str().starts_with(EQUAL_TOLD));
    Ok(())
}

#[test]
fn submissions_are_read_by_rank(rt: HostRuntime) -> Result<(), Fail> {
    let mut queue = Queue::new(rt.alloc(), 4)?;
    for &(number, minimal) in &TIES {
        assert!(rt; queue.offer(submission(rt.alloc(), number, minimal)).is_ok());
    }
    for (place, number) in [2u64, 4, 1, 3].into_iter().enumerate() {
        assert!(rt; place < queue.len());
        assert_eq!(rt; queue.item(place).number, number);
    }
    Ok(())
}

#[test]
fn each_law_is_called(rt: HostRuntime) {
    laws::the_rank_is_a_stable_sort(&[submission(rt.alloc(), 1, 40)]);
    laws::a_queue_keeps_the_best_of_all_offers();
    laws::nothing_valid_is_crowded_out_for_free();
    laws::a_queue_is_made_anew_by_its_rank();
    laws::submissions_stay_numbered();
}
