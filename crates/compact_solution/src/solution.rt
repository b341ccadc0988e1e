//! Solutions: decoded from bytes, read by groups, encoded again.
ghost use Rattle.std.specs.Prelude.{◌≡◌, ◌-◌, ◌≤◌, [], length, IfOk, slice_index_or};
ghost use Rattle.scale_wire.specs.Reading.{ReadsWhole};
ghost use Rattle.compact_solution.specs.Solution.{is_wide, groups_in, solution_form};
ghost use Rattle.scale_wire.specs.WholeReading.{AnswersAs};
ghost use Rattle.compact_solution.specs.SolutionLaws.{solution_laws};

use crate::entry::{Entry, WIDE_GROUPS};
use crate::reading::read_solution;
use crate::writing::write_solution;
use npos_base::{List, NoMemory};
use scale_wire::fault::ReadFault;
use scale_wire::{Cursor, Pen, Wire, read_whole};
use std::alloc::Global;
use std::marker::Model;

/// A solution, after Substrate's compact ones: groups of entries by the number of their targets, in
/// the plain form or in the wide one. Contracts see the list of the groups, which has a spelling.
#[derive(Drop)]
pub struct Solution {
    groups: List<List<Entry>>,
}

impl Model for Solution {
    ghost use Rattle.std.specs.Prelude.{List as list};
    ghost use Rattle.compact_solution.specs.Solution.{Entry, solution_form};

    ghost Value = { list (list Entry) };

    ghost view = { λ s. s.groups };

    ghost invariant = { λ s. solution_form.in_range s.groups };
}

impl Solution {
    /// The solution of these groups.
    pub(crate) fn of_groups(groups: List<List<Entry>>) -> Solution
        requires { solution_form.in_range groups }
        ensures { result ≡ groups }
    {
        Solution { groups }
    }

    /// The solution that the bytes spell. They must be the whole input: where they spell none, the
    /// fault names the place of the first part that is refused and the first reason that applies to
    /// it, and the first byte behind a solution is refused as `Trailing`. Memory is taken for
    /// entries whose bytes are there, whatever lengths are announced.
    pub fn decode(alloc: Global, bytes: &[u8]) -> Result<Solution, ReadFault>
        ensures grammar { ReadsWhole solution_form bytes.now result }
        ensures function { AnswersAs solution_form solution_laws bytes.now result }
    {
        read_whole(alloc, bytes)
    }

    /// The bytes that spell the solution, which each solution has: so they are decoded as it again.
    pub fn encode(&self, alloc: Global) -> Result<List<u8>, NoMemory>
        ensures bytes { IfOk result (λ bytes. bytes ≡ solution_form.spelling self.now) }
        ensures range { solution_form.in_range self.now }
    {
        let mut pen = Pen::new(alloc);
        // The groups have a spelling: this brings what is known of them here.
        let _ = &self.groups;
        self.write(&mut pen)?;
        Ok(pen.finish())
    }

    /// Whether the solution is in the wide form.
    pub fn wide(&self) -> bool
        ensures { result ≡ is_wide self.now }
    {
        self.groups.len() == WIDE_GROUPS
    }

    /// How many groups there are: 24 in the wide form and 16 in the plain one.
    pub fn groups(&self) -> usize
        ensures count { result ≡ length self.now }
        ensures number { result ≡ groups_in (is_wide self.now) }
        ensures most { result ≤ WIDE_GROUPS }
    {
        self.groups.len()
    }

    /// The entries with `j` targets.
    pub fn group(&self, j: usize) -> &[Entry]
        requires some { 1 ≤ j }
        requires most { j ≤ length self.now }
        ensures { result.now ≡ slice_index_or self.now (j - 1) [] }
    {
        self.groups.as_slice()[j - 1].as_slice()
    }
}

/// The groups in order, each a list, and the mark before those of a wide solution.
impl Wire for Solution {
    ghost use Rattle.compact_solution.specs.Solution.{solution_form};
    ghost use Rattle.compact_solution.specs.SolutionLaws.{solution_laws};

    ghost form = { solution_form };

    ghost laws = { solution_laws };

    fn write(&self, pen: &mut Pen) -> Result<(), NoMemory> {
        write_solution(self.groups.as_slice(), pen)
    }

    fn read(alloc: Global, cursor: &mut Cursor<'_>) -> Result<Solution, ReadFault> {
        let groups = read_solution(alloc, cursor)?;
        Ok(Solution { groups })
    }
}
