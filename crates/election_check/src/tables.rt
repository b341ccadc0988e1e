//! The memory of a checker.
ghost use Rattle.std.specs.Prelude.{◌≡◌, ◌≤◌, IfOk, length};
ghost use Rattle.std.specs.Vec.{vec_capacity};
ghost use Rattle.election_check.specs.Kept.{AreTablesOf};

use election_snapshot::Snapshot;
use npos_base::{MOST_NOMINATIONS, NoMemory};
use std::alloc::Global;

/// What a check looks up in place of a search. Each table is filled anew where it is used.
#[derive(Drop)]
pub(crate) struct Tables {
    /// By target, whether it is a member.
    pub(crate) is_member: Vec<bool>,
    /// By voter times the most votes, plus the place of a vote, whether an edge goes along that
    /// nomination. It is the largest by far, and only plain weights need it: so there is room for
    /// it, which stays untouched until then.
    pub(crate) is_seen: Vec<bool>,
    /// By member, what its edges pay of each unit.
    pub(crate) rates: Vec<u64>,
    /// By voter, what is left of its stake.
    pub(crate) left: Vec<u64>,
    /// By target, what its nominators have left.
    pub(crate) prescores: Vec<u64>,
    /// By voter, whether an entry is its.
    pub(crate) has_entry: Vec<bool>,
    /// By target, one more than the voter of the last entry that names it, and 0 where none does.
    pub(crate) stamps: Vec<u32>,
}

impl Tables {
    /// Tables for the checks of this snapshot's solutions.
    pub(crate) fn new(alloc: Global, snapshot: &Snapshot) -> Result<Tables, NoMemory>
        ensures { IfOk result (AreTablesOf snapshot.now) }
    {
        let targets = snapshot.target_count();
        let voters = snapshot.voter_count();
        let is_member = vec![in alloc; false; targets]?;
        let is_seen = Vec::with_capacity(alloc, voters * MOST_NOMINATIONS)?;
        let rates = vec![in alloc; 0; targets]?;
        let left = vec![in alloc; 0; voters]?;
        let prescores = vec![in alloc; 0; targets]?;
        let has_entry = vec![in alloc; false; voters]?;
        let stamps = vec![in alloc; 0; targets]?;
        Ok(Tables {
            is_member,
            is_seen,
            rates,
            left,
            prescores,
            has_entry,
            stamps,
        })
    }
}

/// Brings a table to this length, for which there is room. What it holds says nothing.
pub(crate) fn lay(table: &mut Vec<bool>, count: usize)
    requires { count ≤ vec_capacity table.old }
    ensures length { length table.new.items ≡ count }
    ensures room { vec_capacity table.old ≤ vec_capacity table.new }
{
    match table.resize(count, false) {
        Ok(()) => {}
        Err(_) => unreachable!(),
    }
}
