//! The values that `Wire` is given for here: truth values, numbers, accounts, scores and edges.
ghost use Rattle.std.specs.Prelude.{◌≡◌};

use crate::fault::ReadFault;
use crate::{Cursor, Pen, Wire, write_tag};
use npos_base::{AccountId, Edge, NoMemory, Score};
use std::alloc::Global;

/// Nothing: no byte spells it.
impl Wire for () {
    ghost use Rattle.scale_wire.specs.Composite.{nothing};
    ghost use Rattle.scale_wire.specs.FormLaws.{nothing_laws};

    ghost form = { nothing };

    ghost laws = { nothing_laws };

    #[tactic(auto, using(crate::proofs::ReadLemmas::nothing_written))]
    fn write(&self, _pen: &mut Pen) -> Result<(), NoMemory> {
        Ok(())
    }

    fn read(_alloc: Global, _cursor: &mut Cursor<'_>) -> Result<(), ReadFault> {
        Ok(())
    }
}

impl Wire for bool {
    ghost use Rattle.scale_wire.specs.Values.{flag_form};
    ghost use Rattle.scale_wire.specs.ValueLaws.{flag_laws};

    ghost form = { flag_form };

    ghost laws = { flag_laws };

    fn write(&self, pen: &mut Pen) -> Result<(), NoMemory> {
        write_tag(if *self { 1 } else { 0 }, pen)
    }

    #[tactic(auto, using(crate::proofs::ReadLemmas::flag_read))]
    fn read(_alloc: Global, cursor: &mut Cursor<'_>) -> Result<bool, ReadFault> {
        let tag = cursor.take_tag(2)?;
        Ok(tag == 1)
    }
}

impl Wire for u16 {
    ghost use Rattle.scale_wire.specs.Parts.{compact_u16};
    ghost use Rattle.scale_wire.specs.CompactLaws.{compact_u16_laws};

    ghost form = { compact_u16 };

    ghost laws = { compact_u16_laws };

    fn write(&self, pen: &mut Pen) -> Result<(), NoMemory> {
        pen.put_compact(u64::from(*self))
    }

    fn read(_alloc: Global, cursor: &mut Cursor<'_>) -> Result<u16, ReadFault> {
        Ok(cursor.take_compact_u16()?)
    }
}

impl Wire for u32 {
    ghost use Rattle.scale_wire.specs.Parts.{compact_u32};
    ghost use Rattle.scale_wire.specs.CompactLaws.{compact_u32_laws};

    ghost form = { compact_u32 };

    ghost laws = { compact_u32_laws };

    fn write(&self, pen: &mut Pen) -> Result<(), NoMemory> {
        pen.put_compact(u64::from(*self))
    }

    fn read(_alloc: Global, cursor: &mut Cursor<'_>) -> Result<u32, ReadFault> {
        Ok(cursor.take_compact_u32()?)
    }
}

impl Wire for u64 {
    ghost use Rattle.scale_wire.specs.Parts.{compact_u64};
    ghost use Rattle.scale_wire.specs.CompactLaws.{compact_u64_laws};

    ghost form = { compact_u64 };

    ghost laws = { compact_u64_laws };

    fn write(&self, pen: &mut Pen) -> Result<(), NoMemory> {
        pen.put_compact(*self)
    }

    fn read(_alloc: Global, cursor: &mut Cursor<'_>) -> Result<u64, ReadFault> {
        Ok(cursor.take_compact_u64()?)
    }
}

impl Wire for AccountId {
    ghost use Rattle.scale_wire.specs.Parts.{account_form};
    ghost use Rattle.scale_wire.specs.AccountLaws.{account_laws};

    ghost form = { account_form };

    ghost laws = { account_laws };

    fn write(&self, pen: &mut Pen) -> Result<(), NoMemory> {
        pen.put_account(*self)
    }

    fn read(_alloc: Global, cursor: &mut Cursor<'_>) -> Result<AccountId, ReadFault> {
        Ok(cursor.take_account()?)
    }
}

// A u128 in its sixteen bytes.
#[derive(Clone, Copy, Debug)]
struct Fixed(u128);

impl Wire for Fixed {
    ghost use Rattle.std.specs.Prelude.{refl};
    ghost use Rattle.scale_wire.specs.Composite.{seen};
    ghost use Rattle.scale_wire.specs.FormLaws.{seen_laws};
    ghost use Rattle.scale_wire.specs.Parts.{fixed_u128};
    ghost use Rattle.scale_wire.specs.PartLaws.{fixed_laws};

    ghost form = { seen fixed_u128 (λ number. number.0) };

    ghost laws = { seen_laws fixed_u128 (λ number. number.0)
        (λ n. record { 0 = n }) (λ _. refl) (λ _. refl) (fixed_laws 16) };

    fn write(&self, pen: &mut Pen) -> Result<(), NoMemory> {
        pen.put_u128(self.0)
    }

    fn read(_alloc: Global, cursor: &mut Cursor<'_>) -> Result<Fixed, ReadFault> {
        Ok(Fixed(cursor.take_u128()?))
    }
}

/// The fields in order: the minimal support and the sum as compact integers, the squares in sixteen
/// bytes.
impl Wire for Score {
    ghost use Rattle.scale_wire.specs.Values.{score_form};
    ghost use Rattle.scale_wire.specs.ValueLaws.{score_laws};

    ghost form = { score_form };

    ghost laws = { score_laws };

    fn write(&self, pen: &mut Pen) -> Result<(), NoMemory> {
        (self.minimal, self.sum, Fixed(self.squares)).write(pen)
    }

    fn read(alloc: Global, cursor: &mut Cursor<'_>) -> Result<Score, ReadFault> {
        let (minimal, sum, Fixed(squares)) = <(u64, u64, Fixed)>::read(alloc, cursor)?;
        Ok(Score {
            minimal,
            sum,
            squares,
        })
    }
}

/// The fields in order, all as compact integers.
impl Wire for Edge {
    ghost use Rattle.scale_wire.specs.Values.{edge_form};
    ghost use Rattle.scale_wire.specs.ValueLaws.{edge_laws};

    ghost form = { edge_form };

    ghost laws = { edge_laws };

    fn write(&self, pen: &mut Pen) -> Result<(), NoMemory> {
        (self.voter, self.target, self.amount).write(pen)
    }

    fn read(alloc: Global, cursor: &mut Cursor<'_>) -> Result<Edge, ReadFault> {
        let (voter, target, amount) = <(u32, u16, u64)>::read(alloc, cursor)?;
        Ok(Edge {
            voter,
            target,
            amount,
        })
    }
}
