//! Packing weights into a solution.
ghost use Rattle.std.specs.Prelude.{◌≡◌, ◌≢◌, ℕ, IfOk, IfErr, Ok, Err};
ghost use Rattle.compact_solution.specs.declared.packing.PackFault.TheVariants.{NoMemory as NoMemoryFault};
ghost use Rattle.compact_solution.specs.Packing.{IsPackable, packed};

use crate::choosing::keep;
use crate::listing::{groups_for, list_entries, lowest_lost};
use crate::solution::Solution;
use npos_base::{Edge, NoMemory};
use std::alloc::Global;

/// Why weights have no packed form: no edge to this member is kept, the lowest such one, or memory
/// was refused.
#[derive(Clone, Copy, Debug, PartialEq, Eq)]
pub enum PackFault {
    LostWinner(u16),
    NoMemory,
}

impl From<NoMemory> for PackFault {
    ghost from_gives = { λ _ fault. fault ≡ NoMemoryFault };

    fn from(_want: NoMemory) -> PackFault {
        PackFault::NoMemory
    }
}

/// Packs the weights of an election: voters by their stakes, the members of the committee, and
/// edges from voters to members. Of each voter's edges those are kept that give at least one part
/// in 65,535 of its stake, or else the first of its greatest. They stand by rising target; the last
/// gets the rest of the stake. Entries stand in the group of the number of their targets, by rising
/// voter. The solution is plain where no voter keeps more than 16 edges, and wide otherwise. The rule
/// is this project's; the form is that of Substrate's compact solutions.
pub fn pack(
    alloc: Global,
    stakes: &[u64],
    committee: &[u16],
    edges: &[Edge],
) -> Result<Solution, PackFault>
    requires { IsPackable stakes.now committee.now edges.now }
    ensures solution { IfOk result (λ solution.
        packed stakes.now committee.now edges.now ≡ Ok solution) }
    ensures lost { IfErr result (λ fault. fault ≢ PackFault.NoMemory → (member : ℕ)
        × (fault ≡ PackFault.LostWinner member)
        × (packed stakes.now committee.now edges.now ≡ Err member)) }
{
    let kept = keep(alloc, stakes, edges)?;
    let lists = kept.as_slice();
    if let Some(member) = lowest_lost(alloc, lists, committee)? {
        return Err(PackFault::LostWinner(member));
    }
    let groups = list_entries(alloc, stakes, lists, groups_for(lists))?;
    Ok(Solution::of_groups(groups))
}
