//! Lists whose limit is part of their type.
ghost use Rattle.std.specs.Prelude.{◌≡◌, ◌%◌, ◌^◌};

use crate::fault::ReadFault;
use crate::wire::{read_bytes, read_list, write_bytes, write_list};
use crate::{Cursor, Pen, Wire};
use npos_base::{List, NoMemory};
use std::alloc::Global;
use std::marker::Model;

/// A list that is spelled where it has at most `LIMIT` items, so that it can stand in a pair or a
/// triple. Contracts see it as its items.
#[derive(Drop)]
pub struct UpTo<T, const LIMIT: u32> {
    items: List<T>,
}

impl<T, const LIMIT: u32> Model for UpTo<T, LIMIT> {
    ghost use Rattle.std.specs.Prelude.{List as list};

    ghost Value = { list T };

    ghost view = { λ list. list.items };
}

impl<T, const LIMIT: u32> UpTo<T, LIMIT> {
    /// The items. It takes no memory.
    pub fn into_list(self) -> List<T>
        ensures { result ≡ self }
    {
        let UpTo { items } = self;
        items
    }
}

impl<T: Wire, const LIMIT: u32> Wire for UpTo<T, LIMIT> {
    ghost use Rattle.scale_wire.specs.Composite.{list};
    ghost use Rattle.scale_wire.specs.FormLaws.{list_laws};
    ghost use Rattle.scale_wire.specs.CompactLaws.{length_laws};
    ghost use Rattle.scale_wire.specs.FormLaws.{limit_fits};

    // The remainder is the limit itself: it tells the laws that a u32 is below 2^32.
    ghost form = { list T.form (LIMIT % 2 ^ 32) };

    ghost laws = { list_laws T.form (LIMIT % 2 ^ 32)
        (length_laws (LIMIT % 2 ^ 32) (limit_fits LIMIT)) T.laws };

    fn write(&self, pen: &mut Pen) -> Result<(), NoMemory> {
        write_list(&self.items, pen)
    }

    fn read(alloc: Global, cursor: &mut Cursor<'_>) -> Result<UpTo<T, LIMIT>, ReadFault> {
        let items = read_list(alloc, cursor, LIMIT)?;
        Ok(UpTo { items })
    }
}

/// A list of bytes that is spelled where it has at most `LIMIT` bytes. Contracts see it as its
/// bytes.
#[derive(Drop)]
pub struct BytesUpTo<const LIMIT: u32> {
    bytes: List<u8>,
}

impl<const LIMIT: u32> Model for BytesUpTo<LIMIT> {
    ghost use Rattle.std.specs.Prelude.{List as list, ℕ};

    ghost Value = { list ℕ };

    ghost view = { λ list. list.bytes };
}

impl<const LIMIT: u32> BytesUpTo<LIMIT> {
    /// The bytes. It takes no memory.
    pub fn into_list(self) -> List<u8>
        ensures { result ≡ self.entry }
    {
        let BytesUpTo { bytes } = self;
        bytes
    }
}

impl<const LIMIT: u32> Wire for BytesUpTo<LIMIT> {
    ghost use Rattle.scale_wire.specs.Composite.{byte_list};
    ghost use Rattle.scale_wire.specs.PartLaws.{byte_string_laws};
    ghost use Rattle.scale_wire.specs.CompactLaws.{length_laws};
    ghost use Rattle.scale_wire.specs.FormLaws.{byte_list_laws, limit_fits};

    ghost form = { byte_list (LIMIT % 2 ^ 32) };

    ghost laws = { byte_list_laws (LIMIT % 2 ^ 32)
        (length_laws (LIMIT % 2 ^ 32) (limit_fits LIMIT)) byte_string_laws };

    fn write(&self, pen: &mut Pen) -> Result<(), NoMemory> {
        write_bytes(&self.bytes, pen)
    }

    fn read(alloc: Global, cursor: &mut Cursor<'_>) -> Result<BytesUpTo<LIMIT>, ReadFault> {
        let bytes = read_bytes(alloc, cursor, LIMIT)?;
        Ok(BytesUpTo { bytes })
    }
}
