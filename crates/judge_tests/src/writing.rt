//! The bytes of elections.
use npos_base::{AccountId, NoMemory};
use scale_wire::Pen;

/// The number of the account of the first voter. Those of the targets count from 0.
const FIRST_VOTER: u64 = 16;

/// Appends the account of 31 bytes 0 and this number.
fn put_numbered(pen: &mut Pen, number: u64) -> Result<(), NoMemory> {
    pen.put_account(AccountId {
        hi: 0,
        lo: u128::from(number),
    })
}

/// Appends the seats and the targets.
pub(crate) fn put_targets(pen: &mut Pen, seats: u64, targets: u64) -> Result<(), NoMemory> {
    pen.put_compact(seats)?;
    pen.put_compact(targets)?;
    for target in 0..targets {
        put_numbered(pen, target)?;
    }
    Ok(())
}

/// Appends the voter at this place.
pub(crate) fn put_voter(
    pen: &mut Pen,
    place: u64,
    stake: u64,
    votes: &[u64],
) -> Result<(), NoMemory> {
    put_numbered(pen, FIRST_VOTER.wrapping_add(place))?;
    pen.put_compact(stake)?;
    put_list(pen, votes)
}

/// Appends a list of compact numbers.
pub(crate) fn put_list(pen: &mut Pen, numbers: &[u64]) -> Result<(), NoMemory> {
    pen.put_compact(numbers.len() as u64)?;
    for number in numbers {
        pen.put_compact(*number)?;
    }
    Ok(())
}
