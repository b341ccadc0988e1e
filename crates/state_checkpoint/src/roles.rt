//! What accounts do in elections.
ghost use Rattle.std.specs.Prelude.{◌<◌, ◌∷◌};
ghost use Rattle.scale_wire.specs.Reading.{Reads, Writes};
ghost use Rattle.scale_wire.specs.Composite.{list, list_bytes, behind_tag};
ghost use Rattle.scale_wire.specs.Parts.{account_form};
ghost use Rattle.block_wire.specs.declared.limits.TheConstants.{MOST_NAMED};
ghost use Rattle.state_checkpoint.specs.Layout.{kinds, kind_choice};

use crate::limits::MOST_NAMED;
use npos_base::{AccountId, List, NoMemory};
use scale_wire::fault::ReadFault;
use scale_wire::{
    Cursor, Layout, Own, Pen, Wire, read_list, write_fields, write_list, write_tag, write_three_by,
};
use state_rules::{RoleKind, RoleRow};
use std::alloc::Global;

pub(crate) struct KindLayout;

impl Layout<RoleKind> for KindLayout {
    ghost use Rattle.state_checkpoint.specs.Layout.{kind_form};

    ghost form = { kind_form };

    fn write(kind: &RoleKind, pen: &mut Pen) -> Result<(), NoMemory> {
        match kind {
            RoleKind::Nominator { targets } => write_targets(targets, pen),
            RoleKind::Validator { commission } => write_fields(1, commission, pen),
        }
    }

    fn read(alloc: Global, cursor: &mut Cursor<'_>) -> Result<RoleKind, ReadFault> {
        let mut here = cursor.fork();
        let tag = here.take_tag(2)?;
        let kind = read_kind(alloc, tag, &mut here)?;
        *cursor = here;
        Ok(kind)
    }
}

// The tag of a nominator, and its targets.
#[tactic(auto, using(scale_wire::proofs::ReadLemmas::writes_behind))]
fn write_targets(targets: &List<AccountId>, pen: &mut Pen) -> Result<(), NoMemory>
    requires { (list account_form MOST_NAMED).in_range targets.now }
    ensures { Writes (0 ∷ list_bytes account_form targets.now) pen.old result pen.new }
{
    write_tag(0, pen)?;
    write_list(targets, pen)
}

// What stands behind the tag of a role.
fn read_kind(alloc: Global, tag: u8, cursor: &mut Cursor<'_>) -> Result<RoleKind, ReadFault>
    requires { tag < 2 }
    ensures { Reads (behind_tag kinds kind_choice tag) cursor.old result cursor.new }
{
    match tag {
        0 => {
            let targets = read_list(alloc, cursor, MOST_NAMED)?;
            Ok(RoleKind::Nominator { targets })
        }
        _ => {
            let commission = u32::read(alloc, cursor)?;
            Ok(RoleKind::Validator { commission })
        }
    }
}

pub(crate) struct RoleLayout;

impl Layout<RoleRow> for RoleLayout {
    ghost use Rattle.state_checkpoint.specs.Layout.{role_form};

    ghost form = { role_form };

    fn write(role: &RoleRow, pen: &mut Pen) -> Result<(), NoMemory> {
        write_three_by::<_, _, _, Own, Own, KindLayout>(&role.who, &role.bag, &role.role, pen)
    }

    fn read(alloc: Global, cursor: &mut Cursor<'_>) -> Result<RoleRow, ReadFault> {
        let (who, bag, role) = <(Own, Own, KindLayout) as Layout<_>>::read(alloc, cursor)?;
        Ok(RoleRow { who, bag, role })
    }
}
