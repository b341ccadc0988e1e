//! Signed submissions.
ghost use Rattle.std.specs.Prelude.{◌≡◌, ◌+◌, ◌++◌, ◌<◌, ◌^◌, None, Some, OnOk, IfErr};
ghost use Rattle.npos_runtime.specs.Rules.Outcome.{Meets, Untold};
ghost use Rattle.npos_runtime.specs.Live.{IsLive};
ghost use Rattle.round_decision.specs.Deposits.{return_lines};
ghost use Rattle.npos_runtime.specs.Rules.Signed.{is_open, form_refusal, offer_refusal, ejected, submitted, submit_rule};
ghost use Rattle.npos_runtime.specs.Rules.CallRule.{Follows};

use crate::{Chain, Round};
use block_receipts::{Line, Refusal, Stop};
use chain_params::{deposit_of, era_of, is_signed, solution_max_of};
use npos_base::{AccountId, List, Score};
use round_decision::{hold, return_deposit};
use stake_ledger::LedgerRefusal;
use submission_queue::Submission;

fn is_open(round: &Option<Round>) -> bool
    ensures { result ≡ is_open round.now }
{
    match round {
        Some(Round::Open { .. }) => true,
        Some(Round::Void { .. }) | None => false,
    }
}

/// Whether a round takes such a submission.
fn check_form(chain: &Chain, round: u32, bytes: &[u8]) -> Result<(), Refusal>
    requires { IsLive chain.now }
    ensures ok { OnOk result (form_refusal chain.now round bytes.now ≡ None) }
    ensures refused { IfErr result
        (λ refusal. form_refusal chain.now round bytes.now ≡ Some refusal) }
{
    if !is_signed(&chain.params, chain.due) || !is_open(&chain.round) {
        return Err(Refusal::WrongPhase);
    }
    if round != era_of(&chain.params, chain.due) + 1 {
        return Err(Refusal::WrongRound);
    }
    if bytes.len() > solution_max_of(&chain.params) as usize {
        return Err(Refusal::SolutionTooLong);
    }
    Ok(())
}

/// Puts a submission into the queue, and gives back the deposit of the one that it ejects.
fn take_in(chain: &mut Chain, more: &mut Vec<Line>, item: Submission) -> Result<(), Stop>
    requires live { IsLive chain.old }
    requires numbers { chain.old.next + 1 < 2 ^ 64 }
    ensures meets { Meets (offer_refusal chain.old item) (submitted chain.old item)
        chain.old chain.new result }
    ensures told { OnOk result
        (more.new.items ≡ more.old.items ++ return_lines (ejected chain.old.queue item)) }
    ensures untold { Untold more.old.items more.new.items result }
{
    let (who, deposit) = (item.who, item.deposit);
    if chain.book.free(who) < deposit {
        return Err(Stop::Refused(Refusal::Ledger(LedgerRefusal::LowFunds)));
    }
    let Ok(ejected) = chain.queue.offer(item) else {
        return Err(Stop::Refused(Refusal::NotBetter));
    };
    hold(&mut chain.book, who, deposit)?;
    chain.next += 1;
    if let Some(ejected) = ejected {
        return_deposit(&mut chain.book, more, &ejected)?;
    }
    Ok(())
}

/// Takes a submission of the round that stands, under the next number.
pub fn submit(
    chain: &mut Chain,
    more: &mut Vec<Line>,
    who: AccountId,
    round: u32,
    claim: Score,
    bytes: List<u8>,
) -> Result<(), Stop>
    requires live { IsLive chain.old }
    requires numbers { chain.old.next + 1 < 2 ^ 64 }
    ensures meets { Follows (submit_rule chain.old who round claim bytes)
        chain.old chain.new result }
    ensures told { OnOk result (more.new.items
        ≡ more.old.items ++ (submit_rule chain.old who round claim bytes).told) }
    ensures untold { Untold more.old.items more.new.items result }
{
    if let Err(refusal) = check_form(chain, round, bytes.as_slice()) {
        return Err(Stop::Refused(refusal));
    }
    let item = Submission {
        number: chain.next,
        who,
        deposit: deposit_of(&chain.params),
        score: claim,
        bytes,
    };
    take_in(chain, more, item)
}
