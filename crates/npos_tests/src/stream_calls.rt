//! How the streams of tests are written: calls by name, and their bytes.
use crate::stream_calls::Kind::{
    Bond, BondExtra, CancelSlash, Chill, Claim, Nominate, Offence, Payout, Points, PutInFront,
    Rebag, Rebond, Submit, Unbond, Validate, Withdraw,
};
use npos_base::{AccountId, List, NoMemory};
use scale_wire::Pen;
use std::alloc::Global;

/// A call: the number of the account that makes it, and what it asks.
#[derive(Clone, Copy)]
pub struct Call(pub u64, pub Kind);

/// What a call asks. Accounts are told by their numbers.
#[derive(Clone, Copy)]
pub enum Kind {
    Bond(u64),
    BondExtra(u64),
    Unbond(u64),
    Rebond(u64),
    Withdraw,
    Nominate(&'static [u64]),
    Validate(u64),
    Chill,
    Rebag(u64),
    PutInFront(u64),
    /// A submission for round 1 that claims this least support, the sum 100 and the squares 5,200, and
    /// whose two voters elect the first and the second target.
    Claim(u64),
    /// The claim is the least support, the sum and the squares. Of the solution it is told which
    /// target each voter elects, and how many zeros stand behind it.
    Submit {
        round: u64,
        claim: [u64; 3],
        zeros: u64,
        elects: &'static [u64],
    },
    /// Accounts with their points.
    Points(&'static [(u64, u64)]),
    /// The era, and the validator.
    Payout(u64, u64),
    /// The era, the validator, and the fraction.
    Offence(u64, u64, u64),
    /// The number of the slash.
    CancelSlash(u64),
}

/// A stream, and what a replay of it writes.
#[derive(Clone, Copy)]
pub struct Stream {
    /// What each account is endowed with.
    pub endowment: u64,
    pub least_bond: u64,
    /// The places of the queue.
    pub places: u64,
    /// The calls of the blocks from 1 on.
    pub blocks: &'static [&'static [Call]],
    pub text: &'static str,
}

fn put_account(pen: &mut Pen, number: u64) -> Result<(), NoMemory> {
    pen.put_account(AccountId {
        hi: 0,
        lo: u128::from(number),
    })
}

fn put_numbers(pen: &mut Pen, numbers: &[u64]) -> Result<(), NoMemory> {
    for number in numbers {
        pen.put_compact(*number)?;
    }
    Ok(())
}

/// A genesis: how many accounts are endowed with how much, who is the root, and the numbers behind
/// it.
pub fn put_genesis(
    pen: &mut Pen,
    accounts: u64,
    endowment: u64,
    root: u64,
    numbers: &[u64],
) -> Result<(), NoMemory> {
    put_tagged_genesis(pen, 1, accounts, endowment, root, numbers)
}

/// The same where slashes wait so many eras.
pub fn put_deferred_genesis(
    pen: &mut Pen,
    accounts: u64,
    endowment: u64,
    root: u64,
    numbers: &[u64],
    defer: u64,
) -> Result<(), NoMemory> {
    put_tagged_genesis(pen, 2, accounts, endowment, root, numbers)?;
    pen.put_compact(defer)
}

fn put_tagged_genesis(
    pen: &mut Pen,
    tag: u8,
    accounts: u64,
    endowment: u64,
    root: u64,
    numbers: &[u64],
) -> Result<(), NoMemory> {
    pen.put_u8(tag)?;
    pen.put_compact(accounts)?;
    for number in 0..accounts {
        put_account(pen, number + 1)?;
        pen.put_compact(endowment)?;
    }
    put_account(pen, root)?;
    put_numbers(pen, numbers)
}

fn put_call(pen: &mut Pen, call: &Call) -> Result<(), NoMemory> {
    let Call(who, kind) = call;
    put_account(pen, *who)?;
    put_kind(pen, kind)
}

/// The tag of the kind, and its fields.
fn put_kind(pen: &mut Pen, kind: &Kind) -> Result<(), NoMemory> {
    match *kind {
        Bond(value) => put_amount(pen, 1, value),
        BondExtra(value) => put_amount(pen, 2, value),
        Unbond(value) => put_amount(pen, 3, value),
        Rebond(value) => put_amount(pen, 4, value),
        Withdraw => pen.put_u8(5),
        Nominate(targets) => put_targets(pen, targets),
        Validate(commission) => put_amount(pen, 7, commission),
        Chill => pen.put_u8(8),
        Rebag(who) => put_named(pen, 9, who),
        PutInFront(lighter) => put_named(pen, 10, lighter),
        Claim(minimal) => put_submission(pen, 1, [minimal, 100, 5200], 0, &[0, 1]),
        Submit {
            round,
            claim,
            zeros,
            elects,
        } => put_submission(pen, round, claim, zeros, elects),
        Points(items) => put_points(pen, items),
        Payout(era, validator) => put_payout(pen, era, validator),
        Offence(era, validator, fraction) => put_offence(pen, era, validator, fraction),
        CancelSlash(number) => put_amount(pen, 15, number),
    }
}

fn put_amount(pen: &mut Pen, tag: u8, amount: u64) -> Result<(), NoMemory> {
    pen.put_u8(tag)?;
    pen.put_compact(amount)
}

fn put_named(pen: &mut Pen, tag: u8, account: u64) -> Result<(), NoMemory> {
    pen.put_u8(tag)?;
    put_account(pen, account)
}

fn put_targets(pen: &mut Pen, targets: &[u64]) -> Result<(), NoMemory> {
    pen.put_u8(6)?;
    pen.put_compact(targets.len() as u64)?;
    for target in targets {
        put_account(pen, *target)?;
    }
    Ok(())
}

fn put_points(pen: &mut Pen, items: &[(u64, u64)]) -> Result<(), NoMemory> {
    pen.put_u8(12)?;
    pen.put_compact(items.len() as u64)?;
    for (account, points) in items {
        put_account(pen, *account)?;
        pen.put_compact(*points)?;
    }
    Ok(())
}

fn put_payout(pen: &mut Pen, era: u64, validator: u64) -> Result<(), NoMemory> {
    put_amount(pen, 13, era)?;
    put_account(pen, validator)
}

fn put_offence(pen: &mut Pen, era: u64, validator: u64, fraction: u64) -> Result<(), NoMemory> {
    put_amount(pen, 14, era)?;
    put_account(pen, validator)?;
    pen.put_compact(fraction)
}

/// A solution whose voters elect one target each, so the other fifteen groups are empty.
fn put_solution(pen: &mut Pen, zeros: u64, targets: &[u64]) -> Result<(), NoMemory> {
    pen.put_compact(2 * (targets.len() as u64).min(60) + 16 + zeros.min(1000))?;
    pen.put_compact(targets.len() as u64)?;
    for (voter, target) in targets.iter().enumerate() {
        put_numbers(pen, &[voter as u64, *target])?;
    }
    for _ in 0..zeros.min(1000) + 15 {
        pen.put_u8(0)?;
    }
    Ok(())
}

fn put_submission(
    pen: &mut Pen,
    round: u64,
    claim: [u64; 3],
    zeros: u64,
    elects: &[u64],
) -> Result<(), NoMemory> {
    let [minimal, sum, squares] = claim;
    pen.put_u8(11)?;
    put_numbers(pen, &[round, minimal, sum])?;
    pen.put_u128(u128::from(squares))?;
    put_solution(pen, zeros, elects)
}

pub fn put_block(pen: &mut Pen, number: u64, calls: &[Call]) -> Result<(), NoMemory> {
    pen.put_u8(1)?;
    pen.put_compact(number)?;
    pen.put_compact(calls.len() as u64)?;
    for call in calls {
        put_call(pen, call)?;
    }
    Ok(())
}

/// The blocks from 1 on, and the end of the stream.
pub fn put_blocks(pen: &mut Pen, blocks: &[&[Call]]) -> Result<(), NoMemory> {
    for (place, calls) in blocks.iter().enumerate() {
        put_block(pen, place as u64 + 1, calls)?;
    }
    pen.put_u8(0)
}

/// A genesis whose root is the account 9: accounts with what each is endowed with, and the numbers
/// behind the root.
pub fn put_endowed_genesis(
    pen: &mut Pen,
    endowments: &[(u64, u64)],
    numbers: &[u64],
) -> Result<(), NoMemory> {
    pen.put_u8(1)?;
    pen.put_compact(endowments.len() as u64)?;
    for &(number, value) in endowments {
        put_account(pen, number)?;
        pen.put_compact(value)?;
    }
    put_account(pen, 9)?;
    put_numbers(pen, numbers)
}

pub fn put_stream_genesis(pen: &mut Pen, stream: &Stream) -> Result<(), NoMemory> {
    let numbers = [
        2,
        6,
        2,
        2,
        1,
        stream.least_bond,
        2,
        50,
        80,
        stream.places,
        1000,
        12,
        5,
        1000,
    ];
    put_genesis(pen, 5, stream.endowment, 9, &numbers)
}

pub fn stream_of(alloc: Global, stream: &Stream) -> Result<List<u8>, NoMemory> {
    let mut pen = Pen::new(alloc);
    put_stream_genesis(&mut pen, stream)?;
    put_blocks(&mut pen, stream.blocks)?;
    Ok(pen.finish())
}
