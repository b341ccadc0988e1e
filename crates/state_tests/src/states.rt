//! States as bytes: the worked state of a plain chain, one that has something in each part, and
//! damaged bytes with the place and the reason of their refusal.

use npos_base::{AccountId, List, NoMemory};
use scale_wire::Cursor;
use scale_wire::fault::{ReadFault, Why, WireFault};
use stake_ledger::Chunk;
use state_checkpoint::{laws, read_state, write_state};
use state_rules::{MemberRow, RoleKind, State};
use std::alloc::Global;
use std::test::Fail;

// Accounts 1 and 2.
const ONE: &[u8] = &[
    0, 0, 0, 0, 0, 0, 0, 0, 0, 0, 0, 0, 0, 0, 0, 0, 0, 0, 0, 0, 0, 0, 0, 0, 0, 0, 0, 0, 0, 0, 0, 1,
];

const TWO: &[u8] = &[
    0, 0, 0, 0, 0, 0, 0, 0, 0, 0, 0, 0, 0, 0, 0, 0, 0, 0, 0, 0, 0, 0, 0, 0, 0, 0, 0, 0, 0, 0, 0, 2,
];

// Account 1 has 100 units and account 2 has none; block 1 is due.
const WORKED: [&[u8]; 5] = [
    &[0x00, 0x00, 0x04, 0x91, 0x01, 0x00, 0x00, 0x01],
    ONE,
    &[0x91, 0x01, 0x00, 0x00, 0x00, 0x01],
    TWO,
    &[
        0x00, 0x00, 0x00, 0x00, 0x00, 0x00, 0x00, 0x00, 0x04, 0x00, 0x00, 0x04, 0x00,
    ],
];

// Something in each part. It is no state of any chain: the layout asks for no sense.
const FULL: [&[u8]; 31] = [
    &[0x00, 0x01],
    ONE, // the root of the params
    &[0x04, 0x28, 0x04, 0x08], // seats, blocks of an era, offset, signed
    &[0x0c, 0x14, 0x04, 0x28], // bonding eras, least bond, one threshold
    &[0x10, 0x41, 0x06, 0x1c], // queue, longest solution, deposit
    &[0x00, 0x24, 0x08], // rewards, and the eras that a slash waits
    &[0x34, 0x91, 0x01, 0x08, 0x04], // due block, genesis, minted, burned
    &[0x01],
    ONE, // a row
    &[0x0c, 0x14, 0x04, 0x08, 0x10, 0x1c, 0x00], // free, active, one chunk, held
    &[0x01],
    ONE, // a validator
    &[0x04, 0x01, 0x18, 0x01], // bag, tag, commission
    TWO, // a nominator
    &[0x00, 0x00, 0x04],
    ONE, // its target
    &[0x00, 0x01, 0x04, 0x04], // an era with one member
    ONE,
    &[0x18, 0x08], // commission, two backers
    ONE,
    &[0x14],
    TWO,
    &[0x20, 0x0c, 0x01, 0x08, 0x00], // points, claimed, kept fraction
    &[0x01, 0x04],
    ONE, // a target of the snapshot
    &[0x18, 0x04],
    TWO, // a voter
    &[0x20, 0x04, 0x00, 0x08, 0x04, 0x04], // stake, one vote; next number, a submission
    TWO,
    &[
        0x20, 0x20, 0x40, 0, 0, 0, 0, 0, 0, 0, 0, 0, 0, 0, 0, 0, 0, 0, // score
        0x08, 0xaa, 0xbb, // bytes
        0x01, 0x00, 0x00, 0x04, 0x00, 0x04, 0x00, 0x00, 0x20, // committee and edge
        0x0c, 0x04, 0x08, 0x0c, 0x04, // next number, a slash
    ],
    &[
        0, 0, 0, 0, 0, 0, 0, 0, 0, 0, 0, 0, 0, 0, 0, 0, 0, 0, 0, 0, 0, 0, 0, 0, 0, 0, 0, 0, 0, 0,
        0, 1, 0x04,
    ],
];

// A byte of the worked state, what it is changed into, and the place and the reason of the refusal.
static CHANGED: [(usize, u8, u64, Why); 16] = [
    (0, 0x01, 0, Why::BadTag),
    (1, 0x02, 1, Why::BadTag),
    (2, 0x03, 2, Why::NotShortest),
    (2, 0x17, 2, Why::TooWide),
    (7, 0x02, 7, Why::BadTag),
    (43, 0x84, 43, Why::TooMany),
    (43, 0x04, 45, Why::NotShortest),
    (45, 0x03, 45, Why::BadTag),
    (81, 0x01, 81, Why::NotShortest),
    (83, 0x01, 84, Why::Short),
    (83, 0x02, 83, Why::BadTag),
    (85, 0x01, 87, Why::Short),
    (87, 0x44, 87, Why::TooMany),
    (87, 0x04, 89, Why::Short),
    (88, 0x02, 88, Why::BadTag),
    (90, 0x01, 90, Why::Short),
];

// How many bytes of the worked state are left, and the place where the next part is missing.
static CUT: [(usize, u64); 7] = [
    (0, 0),
    (1, 1),
    (4, 3),
    (20, 8),
    (41, 40),
    (83, 83),
    (90, 90),
];

fn joined(alloc: Global, pieces: &[&[u8]]) -> Result<List<u8>, NoMemory> {
    let mut bytes = Vec::new(alloc);
    for piece in pieces {
        bytes.extend_from_slice(piece)?;
    }
    Ok(List::from_vec(bytes))
}

fn account(n: u128) -> AccountId {
    AccountId { hi: 0, lo: n }
}

#[test]
fn the_worked_state_is_read_and_written(rt: HostRuntime) -> Result<(), Fail> {
    let bytes = joined(rt.alloc(), &WORKED)?;
    let mut cursor = Cursor::new(bytes.as_slice(), 0);
    let state = read_state(rt.alloc(), &mut cursor)?;
    assert_eq!(rt; (bytes.len(), cursor.at()), (91, 91));
    assert!(rt; state.params.is_none() && state.round.is_none() && state.waiting.is_none());
    assert_eq!(rt;
        (state.due, state.genesis, state.minted, state.burned),
        (1, 100, 0, 0)
    );
    assert_eq!(rt; (state.next_submission, state.next_slash), (1, 1));
    let held = state.rows.as_slice().iter().map(|row| (row.who, row.free));
    assert!(rt; held.eq([(account(1), 100), (account(2), 0)]));
    let written = write_state(rt.alloc(), &state)?;
    assert_eq!(rt; written.as_slice(), bytes.as_slice());
    Ok(())
}

#[test]
fn each_part_is_read_and_written(rt: HostRuntime) -> Result<(), Fail> {
    let bytes = joined(rt.alloc(), &FULL)?;
    let state = read_state(rt.alloc(), &mut Cursor::new(bytes.as_slice(), 0))?;
    assert!(rt; has_ledger(&state) && has_roles(&state) && has_election(&state));
    let written = write_state(rt.alloc(), &state)?;
    assert_eq!(rt; written.as_slice(), bytes.as_slice());
    Ok(())
}

fn has_ledger(state: &State) -> bool {
    let rows = state.rows.as_slice().iter().all(|row| {
        (row.who, row.free, row.active, row.held) == (account(1), 3, 5, 7)
            && row.chunks.as_slice()
                == [Chunk {
                    value: 2,
                    release: 4,
                }]
                .as_slice()
    });
    let members = state.eras.as_slice().iter().all(|era| {
        era.era == 1 && era.members.as_slice().iter().all(is_member)
    });
    rows && members && (state.due, state.genesis, state.minted, state.burned) == (13, 100, 2, 1)
}

fn is_member(member: &MemberRow) -> bool {
    let backers = member.backers.as_slice().iter().map(|backer| backer.amount);
    backers.eq([5, 8])
        && (member.who, member.commission) == (account(1), 6)
        && (member.points, member.claimed, member.fraction) == (3, true, 2)
}

fn has_roles(state: &State) -> bool {
    state.roles.as_slice().iter().all(|row| match &row.role {
        RoleKind::Validator { commission } => (row.who, row.bag, *commission) == (account(1), 1, 6),
        RoleKind::Nominator { targets } => {
            (row.who, row.bag) == (account(2), 0) && targets.as_slice() == [account(1)].as_slice()
        }
    })
}

fn has_election(state: &State) -> bool {
    let waits = match &state.waiting {
        Some(waiting) => waiting.committee.as_slice() == [0].as_slice() && waiting.edges.len() == 1,
        None => false,
    };
    let queued = state.queue.as_slice().iter().all(|item| {
        (item.number, item.who, item.score.squares) == (1, account(2), 64)
            && item.bytes.as_slice() == [0xaa, 0xbb].as_slice()
    });
    let slashed = state.slashes.as_slice().iter().all(|slash| {
        (slash.number, slash.due, slash.lines.len()) == (2, 3, 1)
    });
    waits && queued && slashed
}

#[test]
fn damaged_states_are_refused_where_they_should(rt: HostRuntime) -> Result<(), Fail> {
    for &(index, byte, at, why) in &CHANGED {
        let mut changed = joined(rt.alloc(), &WORKED)?.into_vec();
        if let Some(slot) = changed.get_mut(index) {
            *slot = byte;
        }
        assert_eq!(rt; fault_of(rt.alloc(), &changed), Some(WireFault { at, why }));
    }
    for &(left, at) in &CUT {
        let why = Why::Short;
        let mut front = joined(rt.alloc(), &WORKED)?.into_vec();
        front.truncate(left);
        assert_eq!(rt; fault_of(rt.alloc(), &front), Some(WireFault { at, why }));
    }
    Ok(())
}

// The fault of these bytes, where the cursor stays at its place.
fn fault_of(alloc: Global, bytes: &[u8]) -> Option<WireFault> {
    let mut cursor = Cursor::new(bytes, 0);
    match read_state(alloc, &mut cursor) {
        Err(ReadFault::Wire(fault)) if cursor.at() == 0 => Some(fault),
        _ => None,
    }
}

#[test]
fn the_law_can_be_called() {
    laws::a_state_has_one_spelling();
}
