//! Writing parts as bytes.
ghost use Rattle.std.specs.Prelude.{◌≡◌, ◌+◌, ◌^◌, ◌<◌, ◌≤◌, []};
ghost use Rattle.npos_base.specs.Account.{account_bytes};
ghost use Rattle.scale_wire.specs.LittleEndian.{little_endian};
ghost use Rattle.scale_wire.specs.Compact.{compact_bytes, least_bytes};
ghost use Rattle.scale_wire.specs.Writing.{Appends};

use npos_base::{AccountId, List, NoMemory};
use std::alloc::Global;
use std::marker::Model;

/// The bytes written so far. Each `put_` call appends the spelling of one part of a SCALE value;
/// where memory runs out, it leaves the bytes as they were.
#[derive(Drop)]
pub struct Pen {
    bytes: Vec<u8>,
}

impl Model for Pen {
    ghost use Rattle.std.specs.Prelude.{List as list, ℕ};

    ghost Value = { list ℕ };

    ghost view = { λ pen. pen.bytes.items };
}

impl Pen {
    /// A pen that has written nothing. It takes no memory yet.
    pub fn new(alloc: Global) -> Pen
        ensures { result ≡ [] }
    {
        Pen {
            bytes: Vec::new(alloc),
        }
    }

    /// The bytes as they are.
    pub fn put_bytes(&mut self, bytes: &[u8]) -> Result<(), NoMemory>
        ensures { Appends bytes.now result self.old self.new }
    {
        self.bytes.extend_from_slice(bytes)?;
        Ok(())
    }

    /// A number in one byte.
    pub fn put_u8(&mut self, value: u8) -> Result<(), NoMemory>
        ensures { Appends (little_endian 1 value) result self.old self.new }
    {
        self.put_bytes(&[value])
    }

    /// A number in four bytes, the least significant first.
    pub fn put_u32(&mut self, value: u32) -> Result<(), NoMemory>
        ensures { Appends (little_endian 4 value) result self.old self.new }
    {
        self.put_bytes(&value.to_le_bytes())
    }

    /// A number in sixteen bytes, the least significant first.
    pub fn put_u128(&mut self, value: u128) -> Result<(), NoMemory>
        ensures { Appends (little_endian 16 value) result self.old self.new }
    {
        self.put_bytes(&value.to_le_bytes())
    }

    /// The 32 bytes of an account as they are.
    pub fn put_account(&mut self, value: AccountId) -> Result<(), NoMemory>
        ensures { Appends (account_bytes value) result self.old self.new }
    {
        self.put_bytes(&value.to_bytes())
    }

    /// A compact integer, in the shortest mode that holds it.
    pub fn put_compact(&mut self, value: u64) -> Result<(), NoMemory>
        ensures { Appends (compact_bytes value) result self.old self.new }
    {
        if value < 1 << 6 {
            self.put_u8((value * 4) as u8)
        } else if value < 1 << 14 {
            self.put_bytes(&((value * 4 + 1) as u16).to_le_bytes())
        } else if value < 1 << 30 {
            self.put_u32((value * 4 + 2) as u32)
        } else {
            self.put_big(value)
        }
    }

    // A compact integer that only the longest mode holds: how many value bytes follow, and these
    // bytes.
    fn put_big(&mut self, value: u64) -> Result<(), NoMemory>
        requires { 2 ^ 30 ≤ value }
        ensures { Appends (compact_bytes value) result self.old self.new }
    {
        let count = byte_count(value);
        let mut bytes = [0; 9];
        bytes[0] = (count as u8 - 4) * 4 + 3;
        bytes[1..].copy_from_slice(&value.to_le_bytes());
        self.put_bytes(&bytes[..1 + count])
    }

    /// The bytes written. It takes no memory.
    pub fn finish(self) -> List<u8>
        ensures { result ≡ self }
    {
        let Pen { bytes } = self;
        List::from_vec(bytes)
    }
}

// The least number of bytes, from 4 on, that hold the number.
#[tactic(auto, unfolding(crate::specs::Compact::least_bytes))]
fn byte_count(value: u64) -> usize
    ensures count { result ≡ least_bytes value }
    ensures few { result ≤ 8 }
    ensures four { 4 ≤ result }
{
    if value < 1 << 32 {
        4
    } else if value < 1 << 40 {
        5
    } else if value < 1 << 48 {
        6
    } else if value < 1 << 56 {
        7
    } else {
        8
    }
}
