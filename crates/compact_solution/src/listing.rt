//! The entries of kept edges, and the members that are lost.
ghost use Rattle.std.specs.Prelude.{◌≡◌, ◌≢◌, ◌<◌, ◌≤◌, ◌-◌, ◌^◌, ◌||◌, ℕ, All, [], ◌∷◌, ◌++◌, false, not, map, length, IfOk, OnOk, slice_index_or, slice_set};
ghost use Rattle.std.specs.List.{list_any};
ghost use Rattle.compact_solution.specs.Packing.{leads_to, lost_among, lowest_where, entry_of, share_of, fits_plain, groups_for, grouped, lower as lower_of};
ghost use Rattle.compact_solution.specs.Choosing.{Fits, AreKeptMarks, AllKeptFit, empty_groups};

use crate::choosing::parts_in;
use crate::entry::{Entry, PLAIN_GROUPS, Share, WIDE_GROUPS, groups_in};
use npos_base::{Edge, List, MOST_VOTERS, NoMemory};
use std::alloc::Global;

/// How many targets a `u16` can name.
const NAMES: usize = 65_536;

/// The lowest member to which no edge is kept.
pub(crate) fn lowest_lost(
    alloc: Global,
    kept: &[List<Edge>],
    members: &[u16],
) -> Result<Option<u16>, NoMemory>
    ensures { IfOk result (λ lost. lost ≡ lost_among kept.now members.now) }
{
    let mut marks = no_marks(alloc, NAMES)?;
    mark_all(&mut marks, kept);
    Ok(lowest_unmarked(&marks, members))
}

/// As many marks, none of them set.
fn no_marks(alloc: Global, count: usize) -> Result<Vec<bool>, NoMemory>
    ensures count { IfOk result (λ marks. length marks.items ≡ count) }
    ensures none { IfOk result (λ marks. (k : ℕ) → slice_index_or marks.items k false ≡ false) }
{
    let marks = vec![in alloc; false; count]?;
    Ok(marks)
}

/// Marks the targets of all edges.
#[tactic(auto, using(crate::proofs::PackLemmas::marks_more))]
fn mark_all(marks: &mut [bool], kept: &[List<Edge>])
    requires { AreKeptMarks [] marks.old }
    ensures { AreKeptMarks kept.now marks.new }
{
    for edges in kept {
        mark(marks, edges.as_slice());
    }
}

/// Marks the targets of the edges.
#[tactic(auto, using(crate::proofs::PackLemmas::mark_more))]
fn mark(marks: &mut [bool], edges: &[Edge])
    requires { length marks.old ≡ 2 ^ 16 }
    ensures count { length marks.new ≡ length marks.old }
    ensures marked { (target : ℕ) → target < 2 ^ 16 → slice_index_or marks.new target false
        ≡ (slice_index_or marks.old target false || list_any (leads_to target) edges.now) }
{
    for edge in edges {
        marks[usize::from(edge.target)] = true;
    }
}

/// The lowest member that is not marked.
#[tactic(auto, using(crate::proofs::PackLemmas::lowest_more))]
fn lowest_unmarked(marks: &[bool], members: &[u16]) -> Option<u16>
    requires { length marks.now ≡ 2 ^ 16 }
    ensures { result
        ≡ lowest_where (λ member. not (slice_index_or marks.now member false)) members.now }
{
    let mut lowest = None;
    for member in members {
        if !marks[usize::from(*member)] {
            lowest = lower(lowest, *member);
        }
    }
    lowest
}

/// The lower of the lowest so far and the next member.
fn lower(lowest: Option<u16>, member: u16) -> Option<u16>
    ensures { result ≡ lower_of lowest member }
{
    match lowest {
        Some(least) => Some(least.min(member)),
        None => Some(member),
    }
}

/// How many groups the solution of kept edges has: those of the plain form where they fit into it.
pub(crate) fn groups_for(kept: &[List<Edge>]) -> usize
    requires { All (λ edges. length edges ≤ WIDE_GROUPS) kept.now }
    ensures count { result ≡ groups_for kept.now }
    ensures enough { All (λ edges. length edges ≤ result) kept.now }
    ensures most { result ≤ WIDE_GROUPS }
{
    groups_in(!fits_plain(kept))
}

/// Whether no voter keeps more edges than an entry of a plain solution can name targets.
fn fits_plain(kept: &[List<Edge>]) -> bool
    ensures { result ≡ fits_plain kept.now }
{
    for edges in kept {
        if edges.len() > PLAIN_GROUPS {
            return false;
        }
    }
    true
}

/// The entries in this many groups by the number of their targets, each group by rising voter.
pub(crate) fn list_entries(
    alloc: Global,
    stakes: &[u64],
    kept: &[List<Edge>],
    count: usize,
) -> Result<List<List<Entry>>, NoMemory>
    requires lists { length kept.now ≡ length stakes.now }
    requires voters { length stakes.now ≤ MOST_VOTERS }
    requires few { All (λ edges. length edges ≤ count) kept.now }
    requires most { count ≤ WIDE_GROUPS }
    requires fit { AllKeptFit stakes.now kept.now }
    ensures { IfOk result (λ groups. groups
        ≡ grouped count stakes.now kept.now (length stakes.now)) }
{
    let mut groups = no_groups(alloc, count)?;
    list_all(alloc, &mut groups, stakes, kept)?;
    Ok(List::from_vec(groups))
}

/// Appends the entries of all voters to their groups.
fn list_all(
    alloc: Global,
    groups: &mut [List<Entry>],
    stakes: &[u64],
    kept: &[List<Edge>],
) -> Result<(), NoMemory>
    requires empty { groups.old ≡ empty_groups (length groups.old) }
    requires lists { length kept.now ≡ length stakes.now }
    requires voters { length stakes.now ≤ MOST_VOTERS }
    requires few { All (λ edges. length edges ≤ length groups.old) kept.now }
    requires most { length groups.old ≤ WIDE_GROUPS }
    requires fit { AllKeptFit stakes.now kept.now }
    ensures { OnOk result (groups.new
        ≡ grouped (length groups.old) stakes.now kept.now (length stakes.now)) }
{
    for voter in 0..stakes.len() {
        list_entry(
            alloc,
            groups,
            voter as u32,
            stakes[voter],
            kept[voter].as_slice(),
        )?;
    }
    Ok(())
}

/// Appends the entry of a voter that keeps these edges to its group. One that keeps none has none.
fn list_entry(
    alloc: Global,
    groups: &mut [List<Entry>],
    voter: u32,
    stake: u64,
    kept: &[Edge],
) -> Result<(), NoMemory>
    requires few { length kept.now ≤ length groups.old }
    requires most { length groups.old ≤ WIDE_GROUPS }
    requires fit { All (Fits stake) kept.now }
    ensures none { length kept.now ≡ 0 → groups.new ≡ groups.old }
    ensures some { 0 < length kept.now → OnOk result (groups.new
        ≡ slice_set groups.old (length kept.now - 1)
        (slice_index_or groups.old (length kept.now - 1) []
        ++ entry_of voter stake kept.now ∷ [])) }
{
    if !kept.is_empty() {
        let entry = entry_of(alloc, voter, stake, kept)?;
        groups[kept.len() - 1].put(entry)?;
    }
    Ok(())
}

/// As many empty groups as a solution has.
#[tactic(auto, using(crate::proofs::GroupLemmas::groups_more))]
fn no_groups(alloc: Global, count: usize) -> Result<Vec<List<Entry>>, NoMemory>
    ensures { IfOk result (λ groups. groups.items ≡ empty_groups count) }
{
    let mut groups = Vec::with_capacity(alloc, count)?;
    for _ in 0..count {
        groups.push(List::new(alloc))?;
    }
    Ok(groups)
}

/// The entry of a voter that keeps these edges, of which there is one at least.
fn entry_of(alloc: Global, voter: u32, stake: u64, kept: &[Edge]) -> Result<Entry, NoMemory>
    requires some { 0 < length kept.now }
    requires few { length kept.now ≤ WIDE_GROUPS }
    requires fit { All (Fits stake) kept.now }
    ensures { IfOk result (λ entry. entry ≡ entry_of voter stake kept.now) }
{
    let last = kept.len() - 1;
    let shares = list_shares(alloc, stake, &kept[..last])?;
    Ok(Entry::new(voter, shares, kept[last].target))
}

/// The shares of edges.
fn list_shares(alloc: Global, stake: u64, edges: &[Edge]) -> Result<List<Share>, NoMemory>
    requires { All (Fits stake) edges.now }
    ensures { IfOk result (λ shares. shares ≡ map (share_of stake) edges.now) }
{
    let mut shares = Vec::with_capacity(alloc, edges.len())?;
    for edge in edges {
        shares.push(Share {
            target: edge.target,
            parts: parts_in(stake, *edge),
        })?;
    }
    Ok(List::from_vec(shares))
}
