//! The seats of an elected committee.
ghost use Rattle.std.specs.Prelude.{◌≡◌, ◌<◌, nat_eq, length, map, slice_index_or, All, IfOk};
ghost use Rattle.std.specs.Bool.{OnTrue};
ghost use Rattle.std.specs.List.{IsDistinct};
ghost use Rattle.std.specs.List.Sorted.{IsNonDecreasingBy};
ghost use Rattle.npos_base.specs.Account.{account_at};
ghost use Rattle.era_book.specs.Committee.{IsWithin, IsElected, edges_by_voter, exposure_of};
ghost use Rattle.era_book.specs.Members.{members_with};
ghost use Rattle.era_book.specs.Seats.{members_seen, seat_of};

use crate::seat::{Seat, Share};
use crate::seats::Seats;
use crate::shares::shares_by_target;
use npos_base::{AccountId, Edge, List, NoMemory};
use std::alloc::Global;
use std::mem;

/// The seats of an elected committee's members, by account. Each has the validator's own share
/// first, then the others in the order of the voters, whose places the shares name. Edges that do
/// not stand in that order are sorted, in a copy.
pub fn seats_by_voter(
    alloc: Global,
    targets: &[AccountId],
    commissions: &[u32],
    supports: &[u64],
    voters: &[AccountId],
    members: &[u16],
    edges: &[Edge],
) -> Result<Seats, NoMemory>
    requires commissions { length commissions.now ≡ length targets.now }
    requires supports { length supports.now ≡ length targets.now }
    requires elected { IsElected targets.now voters.now commissions.now supports.now edges.now
        members.now }
    ensures { IfOk result (λ seats. members_seen voters.now seats ≡ members_with (map
        (exposure_of targets.now commissions.now supports.now voters.now
        (edges_by_voter (length voters.now) edges.now)) members.now)) }
{
    if are_by_voter(edges) {
        return seats_of(
            alloc,
            targets,
            commissions,
            supports,
            voters,
            members,
            edges,
        );
    }
    let mut sorted = Vec::from_slice(alloc, edges)?;
    sorted.sort_unstable_by_key(|edge| edge.voter);
    seats_of(
        alloc,
        targets,
        commissions,
        supports,
        voters,
        members,
        sorted.as_slice(),
    )
}

/// Whether the edges stand in the order of the voters.
fn are_by_voter(edges: &[Edge]) -> bool
    ensures { OnTrue result (IsNonDecreasingBy (λ edge. edge.voter) edges.now) }
{
    edges.is_sorted_by_key(|edge| edge.voter)
}

/// The seats of different members, by account. Each takes the list of its shares.
fn seats_of(
    alloc: Global,
    targets: &[AccountId],
    commissions: &[u32],
    supports: &[u64],
    voters: &[AccountId],
    members: &[u16],
    edges: &[Edge],
) -> Result<Seats, NoMemory>
    requires members { All (λ member. member < length targets.now) members.now }
    requires once { IsDistinct nat_eq members.now }
    requires commissions { length commissions.now ≡ length targets.now }
    requires supports { length supports.now ≡ length targets.now }
    requires edges { All (IsWithin targets.now voters.now) edges.now }
    ensures { IfOk result (λ seats. members_seen voters.now seats ≡ members_with (map
        (exposure_of targets.now commissions.now supports.now voters.now edges.now) members.now)) }
{
    let mut lists = shares_by_target(alloc, targets, voters, edges)?;
    let mut seats = Seats::with_room(alloc, members.len())?;
    for member in members {
        let place = usize::from(*member);
        let shares = mem::replace(&mut lists[place], List::new(alloc));
        let seat = seat_at(targets, commissions, supports, place, shares);
        seats.insert(seat)?;
    }
    Ok(seats)
}

/// The seat of the target at the place, as its era begins.
fn seat_at(
    targets: &[AccountId],
    commissions: &[u32],
    supports: &[u64],
    place: usize,
    shares: List<Share>,
) -> Seat
    requires target { place < length targets.now }
    requires commissions { length commissions.now ≡ length targets.now }
    requires supports { length supports.now ≡ length targets.now }
    ensures { result ≡ seat_of (account_at targets.now place)
        (slice_index_or commissions.now place 0) (slice_index_or supports.now place 0) shares }
{
    Seat {
        validator: targets[place],
        commission: commissions[place],
        support: supports[place],
        shares,
        points: 0,
        claimed: false,
        fraction: 0,
    }
}
