//! Balancing of weights.
ghost use Rattle.std.specs.Prelude.{◌≡◌, ◌<◌, ℕ, zero, OnOk, OnErr, IfOk};
ghost use Rattle.weight_book.specs.Weights.{Follows};
ghost use Rattle.weight_book.specs.Room.{HasRoom, KeepsRoom};
ghost use Rattle.support_balance.specs.Rounds.{IsBalanced, AreListed};

use crate::Backing;
use election_snapshot::Snapshot;
use npos_base::NoMemory;
use std::alloc::Global;
use weight_book::Weights;

/// Hands the stake of each voter out over the members that it nominates, round after round, until a
/// round changes nothing or the asked number is made. It answers how many rounds were made, the one
/// that changed nothing among them; with 0 rounds it changes nothing. Where it made a round the
/// edges then stand by rising voter, then rising target, all with amounts above 0. All memory is
/// taken before anything changes.
pub fn balance(
    alloc: Global,
    snapshot: &Snapshot,
    weights: &mut Weights,
    rounds: u32,
) -> Result<u32, NoMemory>
    requires room { HasRoom snapshot.now weights.old }
    requires follows { Follows snapshot.now weights.old.plain }
    ensures balanced { IfOk result (λ made. IsBalanced snapshot.now weights.old.plain.committee
        rounds made weights.old.plain.edges weights.new.plain.edges) }
    ensures committee { weights.new.plain.committee ≡ weights.old.plain.committee }
    ensures follows { Follows snapshot.now weights.new.plain }
    ensures listed { IfOk result (λ made. 0 < made → AreListed weights.new.plain.edges) }
    ensures none { IfOk result (λ made. made ≡ 0 → weights.new.plain ≡ weights.old.plain) }
    ensures err { OnErr result (weights.new.plain ≡ weights.old.plain) }
    ensures room { KeepsRoom weights.old weights.new }
{
    if rounds == 0 {
        return Ok(0);
    }
    let mut backing = Backing::over(alloc, snapshot, weights)?;
    let made = backing.balance(rounds);
    backing.put_into(weights)?;
    Ok(made)
}
