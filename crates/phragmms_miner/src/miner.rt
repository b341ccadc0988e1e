//! The run of the miner, seat by seat.
ghost use Rattle.std.specs.Prelude.{◌≡◌, ◌<◌, ◌≤◌, ℕ, not, length, take, filter, IfOk, OnOk};
ghost use Rattle.std.specs.List.{range_with_len};
ghost use Rattle.election_snapshot.specs.Snapshot.{has, stake_of};
ghost use Rattle.weight_book.specs.Weights.{Follows, IsFeasible, spent};
ghost use Rattle.phragmms_miner.specs.Scores.{IsBest, score};
ghost use Rattle.phragmms_miner.specs.Search.{AreTables};
ghost use Rattle.phragmms_miner.specs.Run.{IsRun, IsNext};

use crate::search::best_outside;
use election_snapshot::Snapshot;
use npos_base::NoMemory;
use seat_race::{Nominators, fill_sums};
use std::alloc::Global;
use support_balance::Backing;
use weight_book::Weights;

/// What searches look up.
#[derive(Drop)]
pub(crate) struct Tables {
    /// By target, what part of its support is paid.
    rates: Vec<u64>,
    /// By voter, what it has left, or where its edges begin: each kind of test writes its own.
    left: Vec<u64>,
    /// By target, what its nominators had left in its last test, and before it what they have in all.
    prescores: Vec<u64>,
    /// The targets that may still be picked, in front.
    outside: Vec<u16>,
    /// By target, what its nominators have in all.
    approvals: Vec<u64>,
    /// By target, who nominates it.
    nominators: Nominators,
    /// About where the next greatest score lies.
    hint: u64,
    /// The score of the last pick, and before the first one the whole stake.
    pub(crate) last: u64,
}

/// Mines a committee with weights by the rule of Cevallos and Stewart: seat by seat the target
/// outside with the greatest score joins, ties to the lowest position, and then the asked number of
/// balancing rounds follows. The committee lists the picks in order, and the edges stand by rising
/// voter, then rising target, all with amounts above 0.
pub fn mine_mms(alloc: Global, snapshot: &Snapshot, rounds: u32) -> Result<Weights, NoMemory>
    requires { 1 ≤ rounds }
    ensures run { IfOk result (λ weights. IsRun snapshot.now rounds weights.plain) }
    ensures feasible { IfOk result (λ weights. IsFeasible snapshot.now weights.plain) }
{
    let mut weights = Weights::with_room(alloc, snapshot)?;
    let mut backing = Backing::new(alloc, snapshot)?;
    let mut tables = Tables::new(alloc, snapshot)?;
    for seat in 0..snapshot.seats() {
        seat_one(snapshot, rounds, &mut backing, &mut tables)?;
    }
    backing.put_into(&mut weights)?;
    Ok(weights)
}

impl Tables {
    /// Tables for the searches of this snapshot.
    pub(crate) fn new(alloc: Global, snapshot: &Snapshot) -> Result<Tables, NoMemory>
        ensures { IfOk result (λ tables. AreTables snapshot.now
            tables.rates.items tables.left.items tables.prescores.items tables.outside.items
            tables.approvals.items tables.nominators) }
    {
        let rates = vec![in alloc; 0; snapshot.target_count()]?;
        let left = vec![in alloc; 0; snapshot.voter_count()]?;
        let outside = vec![in alloc; 0; snapshot.target_count()]?;
        let mut approvals = vec![in alloc; 0; snapshot.target_count()]?;
        fill_sums(snapshot, snapshot.stakes(), &mut approvals);
        let prescores = Vec::from_slice(alloc, &approvals)?;
        let nominators = Nominators::new(alloc, snapshot)?;
        Ok(Tables {
            rates,
            left,
            prescores,
            outside,
            approvals,
            nominators,
            hint: snapshot.total(),
            last: snapshot.total(),
        })
    }
}

/// Lets the best target outside join, and balances.
pub(crate) fn seat_one(
    snapshot: &Snapshot,
    rounds: u32,
    backing: &mut Backing<'_>,
    tables: &mut Tables,
) -> Result<(), NoMemory>
    requires some { 1 ≤ rounds }
    requires snapshot { backing.old.snapshot ≡ snapshot.now }
    requires seats { length backing.old.weights.committee < length snapshot.now.targets }
    requires within { (voter : ℕ) → voter < length snapshot.now.voters
        → spent backing.old.weights.edges voter ≤ stake_of snapshot.now voter }
    requires tables { AreTables snapshot.now
        tables.old.rates.items tables.old.left.items tables.old.prescores.items
        tables.old.outside.items
        tables.old.approvals.items tables.old.nominators }
    ensures snapshot { backing.new.snapshot ≡ snapshot.now }
    ensures next { OnOk result
        (IsNext snapshot.now rounds backing.old.weights backing.new.weights) }
    ensures within { OnOk result ((voter : ℕ) → voter < length snapshot.now.voters
        → spent backing.new.weights.edges voter ≤ stake_of snapshot.now voter) }
    ensures tables { AreTables snapshot.now
        tables.new.rates.items tables.new.left.items tables.new.prescores.items
        tables.new.outside.items
        tables.new.approvals.items tables.new.nominators }
{
    let pick = pick_next(
        snapshot,
        backing,
        &tables.approvals,
        &tables.nominators,
        &mut tables.outside,
        &mut tables.rates,
        &mut tables.left,
        &mut tables.prescores,
        &mut tables.hint,
    );
    let score = tables.hint;
    tables.hint = next_hint(tables.last, score);
    tables.last = score;
    backing.add_member(pick, tables.nominators.of(pick))?;
    let _made = backing.balance(rounds);
    Ok(())
}

/// The price at which the next search begins: below the last score by twice what that fell by, so
/// that the next score, which mostly falls about as much, is above it.
fn next_hint(last: u64, score: u64) -> u64 {
    score.saturating_sub(last.saturating_sub(score).saturating_mul(2))
}

/// The lowest of the targets outside with the greatest score.
fn pick_next(
    snapshot: &Snapshot,
    backing: &Backing<'_>,
    approvals: &[u64],
    nominators: &Nominators,
    outside: &mut [u16],
    rates: &mut [u64],
    left: &mut [u64],
    prescores: &mut [u64],
    hint: &mut u64,
) -> u16
    requires snapshot { backing.now.snapshot ≡ snapshot.now }
    requires seats { length backing.now.weights.committee < length snapshot.now.targets }
    requires within { (voter : ℕ) → voter < length snapshot.now.voters
        → spent backing.now.weights.edges voter ≤ stake_of snapshot.now voter }
    requires tables { AreTables snapshot.now rates.old left.old prescores.old outside.old
        approvals.now nominators.now }
    ensures best { IsBest snapshot.now backing.now.weights.committee backing.now.weights.edges
        result }
    ensures hint { hint.new ≡ score snapshot.now backing.now.weights.edges result }
    ensures follows { Follows snapshot.now backing.now.weights }
{
    let count = fill_outside(snapshot, backing, outside);
    let edges = backing.edges();
    best_outside(
        snapshot,
        edges,
        backing.supports(),
        approvals,
        nominators,
        &mut outside[..count],
        rates,
        left,
        prescores,
        hint,
    )
}

/// Puts the targets outside in front, in order, and tells how many they are.
fn fill_outside(snapshot: &Snapshot, backing: &Backing<'_>, outside: &mut [u16]) -> usize
    requires snapshot { backing.now.snapshot ≡ snapshot.now }
    requires places { length outside.old ≡ length snapshot.now.targets }
    ensures count { result ≤ length outside.old }
    ensures outside { take result outside.new ≡ filter
        (λ target. not (has backing.now.weights.committee target))
        (range_with_len 0 (length snapshot.now.targets)) }
{
    let mut count = 0;
    for target in 0..snapshot.target_count() {
        if !backing.is_member(target as u16) {
            outside[count] = target as u16;
            count += 1;
        }
    }
    count
}
