//! The edges of one target's nominators, and what they give first.
ghost use Rattle.std.specs.Prelude.{◌≡◌, ◌+◌, ◌*◌, ◌≤◌, ◌<◌, ◌^◌, ℕ, if◌then◌else◌, ◌++◌, length, nat_eq, sum, slice_set, All, IsTrue, IfOk, OnOk};
ghost use Rattle.std.specs.List.{IsDistinct};
ghost use Rattle.election_snapshot.specs.Snapshot.{has, stake_of, total_stake, votes_of};
ghost use Rattle.weight_book.specs.Proportional.{group_stake};
ghost use Rattle.committee_answer.specs.Offers.{AreLaid, AreMoved, AreSmall, at, row_of, rows};

use crate::committee::Committee;
use crate::offers::Offers;
use election_snapshot::Snapshot;
use npos_base::{Edge, NoMemory};
use std::alloc::Global;

/// No offers yet, and room for the voters and targets of the snapshot.
pub(crate) fn no_offers(alloc: Global, snapshot: &Snapshot) -> Result<Offers, NoMemory>
    ensures voters { IfOk result (λ offers. length offers.left.items ≡ length snapshot.now.voters) }
    ensures targets { IfOk result (λ offers. length offers.spare.items ≡ length snapshot.now.targets) }
{
    let left = vec![in alloc; 0; snapshot.voter_count()]?;
    let spare = vec![in alloc; 0; snapshot.target_count()]?;
    Ok(Offers {
        edges: Vec::new(alloc),
        left,
        spare,
        rest: 0,
    })
}

/// Lays an edge along each nomination of a member by one of the voters. Nothing is given yet.
pub(crate) fn lay(
    snapshot: &Snapshot,
    committee: &Committee<'_>,
    voters: &[u32],
    offers: &mut Offers,
) -> Result<(), NoMemory>
    requires members { All (λ member. member < length snapshot.now.targets) committee.now }
    requires in_range { All (λ voter. voter < length snapshot.now.voters) voters.now }
    requires distinct { IsDistinct nat_eq voters.now }
    requires stake { group_stake snapshot.now voters.now ≤ total_stake snapshot.now }
    requires voters { length offers.old.left.items ≡ length snapshot.now.voters }
    requires targets { length offers.old.spare.items ≡ length snapshot.now.targets }
    ensures laid { OnOk result (AreLaid snapshot.now committee.now voters.now offers.new) }
    ensures small { OnOk result (AreSmall offers.new) }
    ensures voters { OnOk result (length offers.new.left.items ≡ length snapshot.now.voters) }
    ensures targets { OnOk result (length offers.new.spare.items ≡ length snapshot.now.targets) }
{
    lay_spare(snapshot.total(), committee, &mut offers.spare);
    offers.rest = lay_left(snapshot, voters, &mut offers.left);
    offers.edges.clear();
    lay_rows(snapshot, committee, voters, &mut offers.edges)?;
    Ok(())
}

/// Appends the edges of all voters.
fn lay_rows(
    snapshot: &Snapshot,
    committee: &Committee<'_>,
    voters: &[u32],
    edges: &mut Vec<Edge>,
) -> Result<(), NoMemory>
    requires { All (λ voter. voter < length snapshot.now.voters) voters.now }
    ensures { OnOk result (edges.new.items ≡ edges.old.items ++ rows snapshot.now committee.now voters.now) }
{
    for voter in voters {
        lay_row(*voter, snapshot.votes(*voter), committee, edges)?;
    }
    Ok(())
}

/// Each member takes the total stake.
fn lay_spare(total: u64, committee: &Committee<'_>, spare: &mut [u64])
    requires { length spare.old ≤ 65536 }
    ensures { (target : ℕ) → target < length spare.new
        → at spare.new target ≡ (if has committee.now target then total else 0) }
{
    for target in 0..spare.len() {
        spare[target] = if committee.has(target as u16) {
            total
        } else {
            0
        };
    }
}

/// Each voter has its offer left, and nobody else anything. Tells how much that is in all.
fn lay_left(snapshot: &Snapshot, voters: &[u32], left: &mut [u128]) -> u128
    requires in_range { All (λ voter. voter < length snapshot.now.voters) voters.now }
    requires distinct { IsDistinct nat_eq voters.now }
    requires stake { group_stake snapshot.now voters.now ≤ total_stake snapshot.now }
    requires count { length left.old ≡ length snapshot.now.voters }
    ensures offers { (voter : ℕ) → IsTrue (has voters.now voter)
        → at left.new voter ≡ snapshot.now.seats * stake_of snapshot.now voter }
    ensures rest { result ≡ snapshot.now.seats * group_stake snapshot.now voters.now }
    ensures sum { result ≡ sum left.new }
{
    let seats = u128::from(snapshot.seats());
    let _total = snapshot.total();
    left.fill(0);
    let mut rest = 0;
    for voter in voters {
        let offer = seats * u128::from(snapshot.stake(*voter));
        left[*voter as usize] = offer;
        rest += offer;
    }
    rest
}

/// Appends an edge to each member that the voter nominates.
fn lay_row(
    voter: u32,
    votes: &[u16],
    committee: &Committee<'_>,
    edges: &mut Vec<Edge>,
) -> Result<(), NoMemory>
    ensures { OnOk result (edges.new.items ≡ edges.old.items ++ row_of committee.now voter votes.now) }
{
    for target in votes {
        if committee.has(*target) {
            edges.push(Edge {
                voter,
                target: *target,
                amount: 0,
            })?;
        }
    }
    Ok(())
}

/// Each voter gives what it can, first come, first served.
pub(crate) fn give_first(offers: &mut Offers)
    requires { AreSmall offers.old }
    ensures small { AreSmall offers.new }
    ensures moved { AreMoved offers.old offers.new }
{
    for place in 0..offers.edges.len() {
        offers.give_all(place);
    }
}
