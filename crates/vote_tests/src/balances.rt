//! Worked balancings.
ghost use Rattle.std.specs.Prelude.{◌≡◌, IfOk};
ghost use Rattle.weight_book.specs.Weights.{Follows};
ghost use Rattle.weight_book.specs.Room.{HasRoom};

use election_snapshot::{Snapshot, SnapshotBuilder};
use npos_base::{AccountId, Edge, NoMemory};
use seat_race::Nominators;
use std::alloc::Global;
use std::test::Fail;
use support_balance::{Backing, balance, laws};
use weight_book::Weights;

/// An election, and what the first balancing leaves of no edges: each voter's amounts, by rising
/// member.
struct Case {
    voters: &'static [(u64, &'static [u16])],
    members: &'static [u16],
    rounds: u32,
    made: u32,
    amounts: &'static [u64],
    /// How many rounds five more then make, and what they leave.
    more: u32,
    settled: &'static [u64],
}

/// The worked election, in which one voter fills up what the other cannot; then one whose members
/// are not all nominated; then a voter of 24 members with ties.
static CASES: [Case; 4] = [
    Case {
        voters: &[(60, &[0, 1]), (40, &[0])],
        members: &[0, 1],
        rounds: 8,
        made: 3,
        amounts: &[10, 50, 40],
        more: 1,
        settled: &[10, 50, 40],
    },
    Case {
        voters: &[(60, &[0, 1]), (40, &[0])],
        members: &[0, 1],
        rounds: 1,
        made: 1,
        amounts: &[30, 30, 40],
        more: 2,
        settled: &[10, 50, 40],
    },
    Case {
        voters: &[(9, &[3, 2]), (5, &[2]), (7, &[0])],
        members: &[3, 2],
        rounds: 5,
        made: 3,
        amounts: &[2, 7, 5],
        more: 1,
        settled: &[2, 7, 5],
    },
    Case {
        voters: &[(
            1000,
            &[
                23, 22, 21, 20, 19, 18, 17, 16, 15, 14, 13, 12, 11, 10, 9, 8, 7, 6, 5, 4, 3, 2, 1,
                0,
            ],
        )],
        members: &[
            0, 2, 4, 6, 8, 10, 12, 14, 16, 18, 20, 22, 1, 3, 5, 7, 9, 11, 13, 15, 17, 19, 21, 23,
        ],
        rounds: 2,
        made: 2,
        amounts: &[
            42, 42, 42, 42, 42, 42, 42, 42, 42, 42, 42, 42, 42, 42, 42, 42, 41, 41, 41, 41, 41, 41,
            41, 41,
        ],
        more: 1,
        settled: &[
            42, 42, 42, 42, 42, 42, 42, 42, 42, 42, 42, 42, 42, 42, 42, 42, 41, 41, 41, 41, 41, 41,
            41, 41,
        ],
    },
];

fn account(number: u128) -> AccountId {
    AccountId { hi: 1, lo: number }
}

/// An election of 24 targets and 2 seats.
fn election(alloc: Global, voters: &[(u64, &[u16])]) -> Result<Snapshot, NoMemory> {
    let mut builder = SnapshotBuilder::new(alloc);
    for target in 0..24_usize {
        builder
            .add_target(account(target as u128))
            .map_err(|_| NoMemory)?;
    }
    for voter in 0..voters.len() {
        let (stake, votes) = voters[voter];
        builder
            .add_voter(account(24 + voter as u128), stake, votes)
            .map_err(|_| NoMemory)?;
    }
    match builder.finish(2) {
        Ok(snapshot) => Ok(snapshot),
        Err(_) => Err(NoMemory),
    }
}

/// Weights of these members without an edge.
fn without_edges(alloc: Global, snapshot: &Snapshot, members: &[u16]) -> Result<Weights, NoMemory>
    ensures room { IfOk result (HasRoom snapshot.now) }
    ensures follows { IfOk result (λ weights. Follows snapshot.now weights.plain) }
{
    let nominators = Nominators::new(alloc, snapshot)?;
    let mut backing = Backing::new(alloc, snapshot)?;
    for member in members {
        if usize::from(*member) < snapshot.target_count() && !backing.is_member(*member) {
            backing.add_member(*member, nominators.of(*member))?;
        }
    }
    let mut weights = Weights::with_room(alloc, snapshot)?;
    backing.put_into(&mut weights)?;
    Ok(weights)
}

/// Whether the edges have these amounts.
fn have_amounts(edges: &[Edge], amounts: &[u64]) -> bool {
    if edges.len() != amounts.len() {
        return false;
    }
    for place in 0..edges.len() {
        if edges[place].amount != amounts[place] {
            return false;
        }
    }
    true
}

/// Balances with no rounds, with the asked ones, and once more.
fn balance_thrice(alloc: Global, case: &Case) -> Result<[bool; 3], NoMemory> {
    let snapshot = election(alloc, case.voters)?;
    let mut weights = without_edges(alloc, &snapshot, case.members)?;
    let none = balance(alloc, &snapshot, &mut weights, 0)? == 0 && weights.edges().is_empty();
    let made = balance(alloc, &snapshot, &mut weights, case.rounds)?;
    let first = made == case.made && have_amounts(weights.edges(), case.amounts);
    let more = balance(alloc, &snapshot, &mut weights, 5)?;
    let second = more == case.more && have_amounts(weights.edges(), case.settled);
    Ok([none, first, second])
}

#[test]
fn balancings_are_the_worked_ones(rt: HostRuntime) -> Result<(), Fail> {
    for case in &CASES {
        assert_eq!(rt; balance_thrice(rt.alloc(), case)?, [true, true, true]);
    }
    laws::the_amounts_of_a_turn_are_unique();
    laws::a_turn_does_not_raise_the_squares();
    laws::a_balancing_does_not_raise_the_squares();
    Ok(())
}
