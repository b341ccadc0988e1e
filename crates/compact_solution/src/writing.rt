//! Writing the groups of a solution.
ghost use Rattle.std.specs.Prelude.{◌≡◌, ◌≤◌, length};
ghost use Rattle.scale_wire.specs.Writing.{Appends};
ghost use Rattle.scale_wire.specs.Composite.{IsRow, row_bytes};
ghost use Rattle.std.specs.List.{AllByRecursion, flat_map};
ghost use Rattle.scale_wire.specs.Reading.{Writes};
ghost use Rattle.compact_solution.specs.Solution.{share_form, entry_form, group_form, solution_form};
ghost use Rattle.compact_solution.specs.Widths.{mark_before};

use crate::entry::{Entry, Share, WIDE_GROUPS, WIDE_MARK};
use npos_base::{List, NoMemory};
use scale_wire::{Pen, Wire, write_tag};

// The groups in order, behind the mark where they are those of a wide solution.
pub(crate) fn write_solution(groups: &[List<Entry>], pen: &mut Pen) -> Result<(), NoMemory>
    requires { solution_form.in_range groups.now }
    ensures { Writes (solution_form.spelling groups.now) pen.old result pen.new }
{
    write_mark(groups.len() == WIDE_GROUPS, pen)?;
    write_groups(groups, pen)
}

// What stands before the groups of a wide or a plain solution.
fn write_mark(wide: bool, pen: &mut Pen) -> Result<(), NoMemory>
    ensures { Appends (mark_before wide) result pen.old pen.new }
{
    if wide {
        write_tag(WIDE_MARK, pen)
    } else {
        Ok(())
    }
}

// The groups in order. The entries of the first have no share.
fn write_groups(groups: &[List<Entry>], pen: &mut Pen) -> Result<(), NoMemory>
    requires { IsRow group_form 0 (length groups.now) groups.now }
    ensures { Writes (row_bytes group_form 0 groups.now) pen.old result pen.new }
{
    for (shares, group) in groups.iter().enumerate() {
        write_group(group, shares, pen)?;
    }
    Ok(())
}

// The group whose entries have `shares` shares: its length and then its entries.
#[tactic(auto, using(scale_wire::proofs::ReadLemmas::writes_behind))]
fn write_group(entries: &List<Entry>, shares: usize, pen: &mut Pen) -> Result<(), NoMemory>
    requires { (group_form shares).in_range entries.now }
    ensures { Writes ((group_form shares).spelling entries.now) pen.old result pen.new }
{
    pen.put_compact(entries.len() as u64)?;
    write_entries(entries.as_slice(), shares, pen)
}

#[tactic(auto, using(scale_wire::proofs::ListLemmas::items_front))]
fn write_entries(entries: &[Entry], shares: usize, pen: &mut Pen) -> Result<(), NoMemory>
    requires { AllByRecursion (entry_form shares).in_range entries.now }
    ensures { Writes (flat_map (entry_form shares).spelling entries.now) pen.old result pen.new }
{
    for entry in entries {
        write_entry(entry, shares, pen)?;
    }
    Ok(())
}

// The voter, the shares and the last target.
#[tactic(auto, using(scale_wire::proofs::ReadLemmas::second_front))]
fn write_entry(entry: &Entry, shares: usize, pen: &mut Pen) -> Result<(), NoMemory>
    requires { (entry_form shares).in_range entry.now }
    ensures { Writes ((entry_form shares).spelling entry.now) pen.old result pen.new }
{
    pen.put_compact(u64::from(entry.voter()))?;
    write_shares(entry.shares(), pen)?;
    pen.put_compact(u64::from(entry.last()))
}

#[tactic(auto, using(scale_wire::proofs::ListLemmas::items_front))]
fn write_shares(shares: &[Share], pen: &mut Pen) -> Result<(), NoMemory>
    requires { AllByRecursion share_form.in_range shares.now }
    ensures { Writes (flat_map share_form.spelling shares.now) pen.old result pen.new }
{
    for share in shares {
        (share.target, share.parts).write(pen)?;
    }
    Ok(())
}
