//! A state for each fault of a state, as bytes that were made apart by its layout.
use crate::fault_rows::{
    Case, DECIDED, ELECTIONS, ERAS, OPEN, PARAMLESS, PLAIN, Part, QUEUES, ROLES, ROUNDS, ROWS,
    SLASHES, TERMS, WAITING,
};
use npos_base::{AccountId, NoMemory};
use npos_runtime::{Runtime, StateFault};
use scale_wire::Cursor;
use state_checkpoint::read_state;
use std::alloc::Global;
use std::process::Abort;
use std::test::Fail;

/// The sum 100 and the squares 5,200 of a claim.
const SUM_AND_SQUARES: [u8; 18] = [
    0x91, 0x01, 0x50, 0x14, 0, 0, 0, 0, 0, 0, 0, 0, 0, 0, 0, 0, 0, 0,
];

/// A state: its parts, in the order in which they stand, and those that are others.
#[derive(Clone, Copy)]
struct Base {
    parts: &'static [Part],
    others: &'static [Part],
}

fn open() -> Base {
    Base {
        parts: &OPEN,
        others: &[],
    }
}

fn decided() -> Base {
    Base {
        parts: &OPEN,
        others: &DECIDED,
    }
}

fn plain() -> Base {
    Base {
        parts: &PLAIN,
        others: &[],
    }
}

/// The bytes of the part with this name, if it is one of these.
fn named(parts: &[Part], name: &str) -> Option<&'static str> {
    for &(other, text) in parts {
        if other == name {
            return Some(text);
        }
    }
    None
}

/// Appends the bytes of a part.
fn put_part(bytes: &mut Vec<u8>, text: &str) -> Result<(), Fail> {
    for word in text.split_ascii_whitespace() {
        if word == "~" {
            bytes.extend_from_slice(&SUM_AND_SQUARES)?;
        } else if let Some(number) = word.strip_prefix("@") {
            let lo = u128::from_str_radix(number, 10)?;
            bytes.extend_from_slice(&AccountId { hi: 0, lo }.to_bytes())?;
        } else {
            bytes.push(u8::from_str_radix(word, 16)?)?;
        }
    }
    Ok(())
}

/// The bytes of the state where these parts are others.
fn bytes_of(alloc: Global, base: Base, others: &[Part]) -> Result<Vec<u8>, Fail> {
    let mut bytes = Vec::new(alloc);
    for &(name, text) in base.parts {
        let other = named(others, name).or(named(base.others, name));
        put_part(&mut bytes, other.unwrap_or(text))?;
    }
    Ok(bytes)
}

/// The numbers of the fault of these bytes as a state, or that there is none.
fn told_of(alloc: Global, bytes: &[u8]) -> Result<String, Fail> {
    let state = read_state(alloc, &mut Cursor::new(bytes, 0))?;
    match Runtime::restore(alloc, state) {
        Ok(_) => Ok(String::from_str(alloc, "none")?),
        Err(StateFault::Cause { number, detail }) => Ok(format!(in alloc; "{number} {detail}")?),
        Err(StateFault::NotElected(verdict)) => Ok(format!(in alloc; "11 {}", verdict.number())?),
        Err(StateFault::NoMemory) => Err(Fail::from(NoMemory)),
    }
}

/// What is told where these parts are others.
fn told_in(alloc: Global, base: Base, others: &[Part]) -> Result<String, Fail> {
    let bytes = bytes_of(alloc, base, others)?;
    told_of(alloc, &bytes)
}

/// Each case of the table is told as expected.
fn holds(rt: &impl Abort, alloc: Global, base: Base, table: &[Case]) -> Result<(), Fail> {
    for &(expected, others) in table {
        let told = told_in(alloc, base, others)?;
        assert_eq!(rt; told.as_str(), expected);
    }
    Ok(())
}

#[test]
fn sound_states_have_none(rt: HostRuntime) -> Result<(), Fail> {
    for base in [open(), decided(), plain()] {
        holds(&rt, rt.alloc(), base, &[("none", &[])])?;
    }
    Ok(())
}

#[test]
fn numbers_and_params_have_theirs(rt: HostRuntime) -> Result<(), Fail> {
    holds(&rt, rt.alloc(), open(), &TERMS)
}

#[test]
fn rows_and_sums_have_theirs(rt: HostRuntime) -> Result<(), Fail> {
    holds(&rt, rt.alloc(), open(), &ROWS)
}

#[test]
fn roles_have_theirs(rt: HostRuntime) -> Result<(), Fail> {
    holds(&rt, rt.alloc(), open(), &ROLES)
}

#[test]
fn eras_have_theirs(rt: HostRuntime) -> Result<(), Fail> {
    holds(&rt, rt.alloc(), open(), &ERAS)
}

#[test]
fn rounds_have_theirs(rt: HostRuntime) -> Result<(), Fail> {
    holds(&rt, rt.alloc(), open(), &ROUNDS)
}

#[test]
fn submissions_have_theirs(rt: HostRuntime) -> Result<(), Fail> {
    holds(&rt, rt.alloc(), open(), &QUEUES)
}

#[test]
fn committees_have_theirs(rt: HostRuntime) -> Result<(), Fail> {
    holds(&rt, rt.alloc(), decided(), &WAITING)
}

#[test]
fn elections_have_theirs(rt: HostRuntime) -> Result<(), Fail> {
    holds(&rt, rt.alloc(), decided(), &ELECTIONS)
}

#[test]
fn slashes_have_theirs(rt: HostRuntime) -> Result<(), Fail> {
    holds(&rt, rt.alloc(), open(), &SLASHES)
}

#[test]
fn states_without_params_have_theirs(rt: HostRuntime) -> Result<(), Fail> {
    holds(&rt, rt.alloc(), plain(), &PARAMLESS)
}
