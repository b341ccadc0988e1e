//! What a run keeps by voter and by target.
ghost use Rattle.std.specs.Prelude.{◌≡◌, ℕ, [], false, length, slice_index_or, IfOk};
ghost use Rattle.seq_phragmen.specs.Kept.{AreApprovals, IsAfter};

use election_snapshot::Snapshot;
use npos_base::NoMemory;
use seat_race::{Nominators, fill_sums};
use std::alloc::Global;

/// The state of a run. Loads and what they come to by target are raised together, so that no sum is
/// made anew.
#[derive(Drop)]
pub(crate) struct Race {
    /// By voter, its load.
    pub(crate) loads: Vec<u64>,
    /// By voter, the last pick that it nominates, 0 before any.
    pub(crate) lasts: Vec<u16>,
    /// By target, the stake of its nominators.
    pub(crate) approvals: Vec<u64>,
    /// By target, the sum of stake times load over its nominators.
    pub(crate) burdens: Vec<u128>,
    /// By target, the last score that was made for it, 0 before any. Loads never fall, so its score
    /// is no less now. Of a target that is picked it is a number that no score is above.
    pub(crate) floors: Vec<u64>,
    /// By target, whether it was picked.
    pub(crate) is_picked: Vec<bool>,
    /// By target, its nominators in rising order.
    pub(crate) nominators: Nominators,
}

impl Race {
    /// The state before the first pick.
    pub(crate) fn new(alloc: Global, snapshot: &Snapshot) -> Result<Race, NoMemory>
        ensures { IfOk result (IsAfter snapshot.now []) }
    {
        let targets = snapshot.target_count();
        let loads = zeros(alloc, snapshot.voter_count())?;
        let lasts = no_lasts(alloc, snapshot.voter_count())?;
        let approvals = approvals_of(alloc, snapshot)?;
        let burdens = no_burdens(alloc, targets)?;
        let floors = zeros(alloc, targets)?;
        let is_picked = no_marks(alloc, targets)?;
        let nominators = Nominators::new(alloc, snapshot)?;
        Ok(Race {
            loads,
            lasts,
            approvals,
            burdens,
            floors,
            is_picked,
            nominators,
        })
    }
}

/// As many zeros.
fn zeros(alloc: Global, count: usize) -> Result<Vec<u64>, NoMemory>
    ensures count { IfOk result (λ zeros. length zeros.items ≡ count) }
    ensures zero { IfOk result (λ zeros. (k : ℕ) → slice_index_or zeros.items k 0 ≡ 0) }
{
    let zeros = vec![in alloc; 0; count]?;
    Ok(zeros)
}

/// As many burdens of 0.
fn no_burdens(alloc: Global, count: usize) -> Result<Vec<u128>, NoMemory>
    ensures count { IfOk result (λ burdens. length burdens.items ≡ count) }
    ensures zero { IfOk result (λ burdens. (k : ℕ) → slice_index_or burdens.items k 0 ≡ 0) }
{
    let burdens = vec![in alloc; 0; count]?;
    Ok(burdens)
}

/// As many last picks, of no voter.
fn no_lasts(alloc: Global, count: usize) -> Result<Vec<u16>, NoMemory>
    ensures count { IfOk result (λ lasts. length lasts.items ≡ count) }
    ensures zero { IfOk result (λ lasts. (k : ℕ) → slice_index_or lasts.items k 0 ≡ 0) }
{
    let lasts = vec![in alloc; 0; count]?;
    Ok(lasts)
}

/// As many targets that are not picked.
fn no_marks(alloc: Global, count: usize) -> Result<Vec<bool>, NoMemory>
    ensures count { IfOk result (λ marks. length marks.items ≡ count) }
    ensures none { IfOk result (λ marks. (k : ℕ) → slice_index_or marks.items k false ≡ false) }
{
    let marks = vec![in alloc; false; count]?;
    Ok(marks)
}

/// By target, the stake of its nominators.
fn approvals_of(alloc: Global, snapshot: &Snapshot) -> Result<Vec<u64>, NoMemory>
    ensures count { IfOk result (λ table. length table.items ≡ length snapshot.now.targets) }
    ensures approvals { IfOk result (λ table. AreApprovals snapshot.now table.items) }
{
    let mut approvals = vec![in alloc; 0; snapshot.target_count()]?;
    fill_sums(snapshot, snapshot.stakes(), &mut approvals);
    Ok(approvals)
}
