//! The decision of a round, where one is due.
ghost use Rattle.std.specs.Prelude.{OnOk};
ghost use Rattle.npos_runtime.specs.Rules.Outcome.{Goes};
ghost use Rattle.npos_runtime.specs.Live.{IsLive};
ghost use Rattle.npos_runtime.specs.Rules.Deciding.{decision_phase};

use crate::{Chain, Round, Waiting};
use block_receipts::Line;
use chain_params::{is_decision, reward_of};
use npos_base::NoMemory;
use round_decision::{decide, tell_members};
use std::alloc::Global;

/// A round may be due to be decided. A void one seats nobody.
pub fn decide_round(alloc: Global, chain: &mut Chain, lines: &mut Vec<Line>) -> Result<(), NoMemory>
    requires { IsLive chain.old }
    ensures { OnOk result
        (Goes (decision_phase chain.old) chain.new lines.old.items lines.new.items) }
{
    if !is_decision(&chain.params, chain.due) {
        return Ok(());
    }
    match chain.round.take() {
        Some(
            Round::Open {
                number,
                snapshot,
                commissions,
            },
        ) => {
            let amount = reward_of(&chain.params);
            let elected = decide(
                alloc,
                number,
                snapshot,
                amount,
                &mut chain.queue,
                &mut chain.book,
                lines,
            )?;
            tell_members(lines, &elected)?;
            chain.waiting = Some(Waiting {
                elected,
                commissions,
            });
        }
        round => chain.round = round,
    }
    Ok(())
}
