//! The worked payout and the worked slashes, each refusal, the eras that go, and the slashes that
//! wait. Expected answers are the rules', by hand.
ghost use Rattle.std.specs.Prelude.{◌≡◌, ◌+◌, ◌<◌, ◌≤◌, IfOk};
ghost use Rattle.era_book.specs.Exposures.{AreSound};

use era_book::{Backer, EraBook, EraRefusal, Exposure, MOST_SLASHES, laws};
use npos_base::{AccountId, Edge, List, NoMemory, Reason};
use std::alloc::Global;
use std::fmt::Write;
use std::test::Fail;

/// Claims in turn, each an era, a validator and what is told where the reward is 1000.
static CLAIMS: [(u32, u8, &str); 6] = [
    (1, 1, "1 256, 2 171, 427"),
    (1, 1, "refused 24"),
    (3, 9, "refused 21"),
    (2, 9, "refused 22"),
    (1, 9, "refused 23"),
    (1, 5, "refused 26"),
];

/// Reports in turn, each an era, a validator, a fraction and what is told.
static REPORTS: [(u32, u8, u32, &str); 9] = [
    (1, 3, 100_000_000, "4 5, "),
    (1, 3, 250_000_000, "4 8, "),
    (1, 3, 200_000_000, "refused 25"),
    (1, 3, 250_000_000, "refused 25"),
    (1, 1, 1_000_000_000, "1 50, 2 40, "),
    (9, 9, 0, "refused 15"),
    (9, 9, 1_000_000_001, "refused 15"),
    (9, 9, 1, "refused 21"),
    (2, 3, 1, "refused 23"),
];

/// What is done with the slashes that wait.
enum Step {
    /// The next era begins.
    Era,
    /// A slash is queued for an era.
    Queue(u32),
    /// The slash of a number is cancelled.
    Cancel(u64),
    /// The next slash that is due is taken.
    Take,
}

/// Steps in turn, and what is told of each: the era that has begun, the number of a slash that is
/// queued, the refusal, or the slash that is taken.
static STEPS: [(Step, &str); 21] = [
    (Step::Take, "none"),
    (Step::Queue(2), "1"),
    (Step::Queue(2), "2"),
    (Step::Queue(2), "3"),
    (Step::Queue(3), "4"),
    (Step::Cancel(5), "refused 31"),
    (Step::Cancel(0), "refused 31"),
    (Step::Era, "era 1"),
    (Step::Take, "none"),
    (Step::Cancel(2), "ok"),
    (Step::Cancel(2), "refused 31"),
    (Step::Era, "era 2"),
    (Step::Take, "1 for 2"),
    (Step::Take, "3 for 2"),
    (Step::Take, "none"),
    (Step::Queue(4), "5"),
    (Step::Era, "era 3"),
    (Step::Era, "era 4"),
    (Step::Take, "4 for 3"),
    (Step::Take, "5 for 4"),
    (Step::Take, "none"),
];

/// The account of 31 bytes 0 and this one.
const fn at(n: u8) -> AccountId
    ensures { result ≡ record { hi = 0; lo = n } }
{
    AccountId {
        hi: 0,
        lo: n as u128,
    }
}

fn exposure(
    alloc: Global,
    n: u8,
    commission: u32,
    support: u64,
    backers: &[Backer],
) -> Result<Exposure, NoMemory>
    ensures { IfOk result (λ exposure. exposure ≡ record {
      validator = record { hi = 0; lo = n };
      commission = commission;
      support = support;
      backers = backers.now;
    }) }
{
    Ok(Exposure {
        validator: at(n),
        commission,
        support,
        backers: List::from_vec(Vec::from_slice(alloc, backers)?),
    })
}

/// What the account backs a validator with.
const fn backer(n: u8, amount: u64) -> Backer
    ensures { result ≡ record { who = record { hi = 0; lo = n }; amount = amount } }
{
    Backer { who: at(n), amount }
}

/// Three validators: with two backers, one of them itself; with another; and with none.
fn three(alloc: Global) -> Result<List<Exposure>, NoMemory>
    ensures { IfOk result AreSound }
{
    let first = exposure(alloc, 1, 100_000_000, 90, &[backer(1, 50), backer(2, 40)])?;
    let second = exposure(alloc, 3, 0, 55, &[backer(4, 55)])?;
    let third = exposure(alloc, 5, 500_000_000, 0, &[])?;
    Ok(List::from_vec(vec![in alloc; first, second, third]?))
}

/// The next era begins without an exposure.
fn start_empty(alloc: Global, book: &mut EraBook) -> Result<(), Fail>
    ensures { book.new.next_slash ≡ book.old.next_slash }
{
    if book.current() < 1000 {
        book.start_era(List::new(alloc))?;
    }
    Ok(())
}

/// A book at era 2, where three validators were exposed in era 1 and got these points.
fn two_eras(alloc: Global, points: &[(AccountId, u32)]) -> Result<EraBook, Fail> {
    let mut book = EraBook::new(alloc);
    book.start_era(three(alloc)?)?;
    book.add_points(points)?;
    start_empty(alloc, &mut book)?;
    Ok(book)
}

/// Claims a validator's part of an era, and tells what is paid or the number of the refusal.
fn claimed(alloc: Global, book: &mut EraBook, era: u32, n: u8) -> Result<String, Fail> {
    let mut text = String::new(alloc);
    match book.payout_list(alloc, era, at(n), 1000) {
        Ok(payout) => {
            book.mark_paid(era, at(n));
            for line in payout.lines.as_slice() {
                write!(text, "{} {}, ", line.who.lo, line.amount)?;
            }
            write!(text, "{}", payout.total)?;
        }
        Err(refusal) => write!(text, "refused {}", refusal.number().unwrap_or(0))?,
    }
    Ok(text)
}

/// Reports a fraction, and tells what is due or the number of the refusal.
fn reported(
    alloc: Global,
    book: &mut EraBook,
    era: u32,
    n: u8,
    fraction: u32,
) -> Result<String, Fail> {
    let mut text = String::new(alloc);
    match book.slash_list(alloc, era, at(n), fraction) {
        Ok(lines) => {
            book.mark_slashed(era, at(n), fraction);
            for line in lines.as_slice() {
                write!(text, "{} {}, ", line.who.lo, line.amount)?;
            }
        }
        Err(refusal) => write!(text, "refused {}", refusal.number().unwrap_or(0))?,
    }
    Ok(text)
}

#[test]
fn validators_are_paid_once(rt: HostRuntime) -> Result<(), Fail> {
    let alloc = rt.alloc();
    let mut book = two_eras(alloc, &[(at(1), 3), (at(3), 4)])?;
    for &(era, n, told) in &CLAIMS {
        assert_eq!(rt; claimed(alloc, &mut book, era, n)?.as_str(), told);
    }
    assert_eq!(rt; book.add_points(&[]), Ok(()));
    assert_eq!(rt; book.add_points(&[(at(1), 3)]), Err(EraRefusal::NotExposed));
    Ok(())
}

#[test]
fn only_what_is_more_is_due(rt: HostRuntime) -> Result<(), Fail> {
    let alloc = rt.alloc();
    let mut book = two_eras(alloc, &[])?;
    for &(era, n, fraction, told) in &REPORTS {
        assert_eq!(rt;
            reported(alloc, &mut book, era, n, fraction)?.as_str(),
            told
        );
    }
    Ok(())
}

#[test]
fn eighty_four_eras_stay(rt: HostRuntime) -> Result<(), Fail> {
    let alloc = rt.alloc();
    let mut book = two_eras(alloc, &[(at(5), u32::MAX), (at(5), 7), (at(3), u32::MAX)])?;
    for _ in 2..84 {
        start_empty(alloc, &mut book)?;
    }
    assert_eq!(rt; claimed(alloc, &mut book, 0, 1)?.as_str(), "refused 23");
    start_empty(alloc, &mut book)?;
    assert_eq!(rt; book.current(), 85);
    assert_eq!(rt; claimed(alloc, &mut book, 0, 1)?.as_str(), "refused 21");
    assert_eq!(rt; claimed(alloc, &mut book, 1, 5)?.as_str(), "5 250, 250");
    assert_eq!(rt; claimed(alloc, &mut book, 1, 3)?.as_str(), "4 500, 500");
    Ok(())
}

/// Queues a slash of one line for the era, where it can be queued for it, and tells its number.
fn queue_for(alloc: Global, book: &mut EraBook, due: u32) -> Result<String, Fail>
    requires { book.old.next_slash < 1000 }
    ensures { book.new.next_slash ≤ book.old.next_slash + 1 }
{
    let mut text = String::new(alloc);
    let none_later = book.queued().iter().all(|slash| slash.due <= due);
    if due > book.current() && none_later {
        let lines = List::from_vec(vec![in alloc; backer(7, 20)]?);
        match book.queue_slash(due, lines) {
            Ok(number) => write!(text, "{}", number)?,
            Err(refusal) => write!(text, "refused {}", refusal.number().unwrap_or(0))?,
        }
    }
    Ok(text)
}

/// Does the step, and tells what comes of it.
fn done(alloc: Global, book: &mut EraBook, step: &Step) -> Result<String, Fail>
    requires { book.old.next_slash < 1000 }
    ensures { book.new.next_slash ≤ book.old.next_slash + 1 }
{
    let mut text = String::new(alloc);
    match step {
        Step::Era => {
            start_empty(alloc, book)?;
            write!(text, "era {}", book.current())?;
        }
        Step::Queue(due) => return queue_for(alloc, book, *due),
        Step::Cancel(number) => match book.cancel_slash(*number) {
            Ok(()) => write!(text, "ok")?,
            Err(refusal) => write!(text, "refused {}", refusal.number().unwrap_or(0))?,
        },
        Step::Take => match book.take_due() {
            Some(slash) => write!(text, "{} for {}", slash.number, slash.due)?,
            None => write!(text, "none")?,
        },
    }
    Ok(text)
}

#[test]
fn slashes_wait_until_they_are_due(rt: HostRuntime) -> Result<(), Fail> {
    let alloc = rt.alloc();
    let mut book = EraBook::new(alloc);
    for (step, told) in &STEPS {
        assert_eq!(rt; done(alloc, &mut book, step)?.as_str(), *told);
    }
    assert_eq!(rt; book.queued().len(), 0);
    Ok(())
}

#[test]
fn no_more_slashes_wait_than_can(rt: HostRuntime) -> Result<(), Fail> {
    let alloc = rt.alloc();
    let mut book = EraBook::new(alloc);
    for _ in 0..MOST_SLASHES {
        queue_for(alloc, &mut book, 1)?;
    }
    assert_eq!(rt; book.queued().len(), 256);
    assert_eq!(rt; queue_for(alloc, &mut book, 1)?.as_str(), "refused 32");
    assert_eq!(rt; book.queued().len(), 256);
    assert_eq!(rt; book.cancel_slash(100), Ok(()));
    assert_eq!(rt; queue_for(alloc, &mut book, 1)?.as_str(), "257");
    assert_eq!(rt; queue_for(alloc, &mut book, 2)?.as_str(), "refused 32");
    Ok(())
}

/// The edges of three voters to the first target, not by voter.
const MIXED: [Edge; 3] = [
    Edge {
        voter: 2,
        target: 0,
        amount: 5,
    },
    Edge {
        voter: 1,
        target: 0,
        amount: 50,
    },
    Edge {
        voter: 0,
        target: 0,
        amount: 40,
    },
];

#[test]
fn the_others_stand_in_the_order_of_the_voters(rt: HostRuntime) -> Result<(), Fail> {
    let alloc = rt.alloc();
    let mut book = EraBook::new(alloc);
    book.start_elected(
        &[at(1), at(2)],
        &[7, 8],
        &[95, 0],
        List::from_vec(vec![in alloc; at(3), at(1), at(4)]?),
        &[0, 1],
        &MIXED,
    )?;
    let told = reported(alloc, &mut book, 1, 1, 1_000_000_000)?;
    assert_eq!(rt; told.as_str(), "1 50, 3 40, 4 5, ");
    assert_eq!(rt; reported(alloc, &mut book, 1, 2, 1)?.as_str(), "");
    Ok(())
}

#[test]
fn each_law_is_called(_rt: HostRuntime) {
    laws::a_payout_is_within_its_value();
    laws::dues_telescope();
    laws::payouts_are_within_the_reward();
    laws::dues_are_within_the_exposures();
    laws::eras_stay_in_order();
    laws::later_payouts_are_within_the_reward();
    laws::later_dues_are_within_the_exposures();
    laws::what_is_taken_was_queued();
    laws::exposures_are_the_edges();
    laws::eras_are_made_anew_from_their_members();
    laws::members_stay_whole();
}
