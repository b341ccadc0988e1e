//! Reading parts from bytes, with no memory taken.
ghost use Rattle.std.specs.Prelude.{◌≡◌, ◌≢◌, ℕ, ◌+◌, ◌^◌, ◌<◌, ◌≤◌, length, take, drop, MatchResult, MatchOption};
ghost use Rattle.scale_wire.specs.Form.{IsBytes};
ghost use Rattle.scale_wire.specs.Reading.{Takes, IsRead, IsFault};
ghost use Rattle.scale_wire.specs.Parts.{fixed_u8, fixed_u32, fixed_u128, byte_string, tag_form, compact_form, compact_u16, compact_u32, compact_u64, length_form, account_form};
ghost use Rattle.scale_wire.specs.CompactRange.{Suits};

use crate::compact::read_compact;
use crate::fault::{Why, WireFault};
use npos_base::AccountId;
use std::marker::Model;

/// A place in bytes and what is left of them. Each `take_` call reads one part of a SCALE value at
/// the place and moves behind it. Where it refuses, it names that place and the first reason that
/// applies, and the cursor stays as it was. No call takes memory.
#[derive(Drop)]
pub struct Cursor<'a> {
    at: u64,
    rest: &'a [u8],
}

impl<'a> Model for Cursor<'a> {
    ghost use Rattle.std.specs.Prelude.{◌+◌, ◌<◌, ◌^◌, length};
    ghost use Rattle.scale_wire.specs.Reading.{Place};

    ghost Value = { Place };

    ghost view = { λ c. record { at = c.at; rest = c.rest.now } };

    ghost invariant = { λ c. c.at + length c.rest.now < 2 ^ 64 };
}

impl<'a> Cursor<'a> {
    /// A cursor at the first of the bytes, whose place is `start`.
    pub fn new(bytes: &'a [u8], start: u64) -> Cursor<'a>
        requires { start + length bytes.now < 2 ^ 64 }
        ensures { result ≡ record { at = start; rest = bytes.now } }
    {
        Cursor {
            at: start,
            rest: bytes,
        }
    }

    /// The place of the next byte.
    pub fn at(&self) -> u64
        ensures { result ≡ self.now.at }
    {
        self.at
    }

    /// The bytes that are left.
    pub fn rest(&self) -> &'a [u8]
        ensures { result.now ≡ self.now.rest }
    {
        self.rest
    }

    /// A second cursor at the same place.
    pub fn fork(&self) -> Cursor<'a>
        ensures { result ≡ self.now }
    {
        Cursor {
            at: self.at,
            rest: self.rest,
        }
    }

    /// The next `n` bytes, borrowed from the input. They are refused as `Short` where fewer are
    /// left.
    pub fn take_bytes(&mut self, n: usize) -> Result<&'a [u8], WireFault>
        ensures { MatchResult result
            (λ bytes. IsRead (byte_string n) self.old bytes.now self.new)
            (λ fault. IsFault (byte_string n) self.old fault self.new) }
    {
        match split_front(self.rest, n) {
            Some((front, rest)) => {
                self.at += n as u64;
                self.rest = rest;
                Ok(front)
            }
            None => Err(self.fault(Why::Short)),
        }
    }

    // The next bytes, as many as the array has.
    fn take_array<const N: usize>(&mut self) -> Result<[u8; N], WireFault>
        ensures { Takes (byte_string N) self.old result self.new }
    {
        let mut array = [0; N];
        array.copy_from_slice(self.take_bytes(N)?);
        Ok(array)
    }

    /// One byte, refused as `Short` where none is left.
    pub fn take_u8(&mut self) -> Result<u8, WireFault>
        ensures { Takes fixed_u8 self.old result self.new }
    {
        let [byte] = self.take_array::<1>()?;
        Ok(byte)
    }

    /// A number in four bytes, the least significant first, refused as `Short` where fewer are
    /// left.
    pub fn take_u32(&mut self) -> Result<u32, WireFault>
        ensures { Takes fixed_u32 self.old result self.new }
    {
        Ok(u32::from_le_bytes(self.take_array()?))
    }

    /// A number in sixteen bytes, the least significant first, refused as `Short` where fewer are
    /// left.
    pub fn take_u128(&mut self) -> Result<u128, WireFault>
        ensures { Takes fixed_u128 self.old result self.new }
    {
        Ok(u128::from_le_bytes(self.take_array()?))
    }

    /// A tag, one byte below `below`, refused as `Short` or `BadTag`.
    pub fn take_tag(&mut self, below: u8) -> Result<u8, WireFault>
        ensures { Takes (tag_form below) self.old result self.new }
    {
        let mut here = self.fork();
        let tag = here.take_u8()?;
        if tag < below {
            *self = here;
            Ok(tag)
        } else {
            Err(self.fault(Why::BadTag))
        }
    }

    /// A compact integer below 2^16, refused as `Short`, `TooWide` or `NotShortest`.
    pub fn take_compact_u16(&mut self) -> Result<u16, WireFault>
        ensures { Takes compact_u16 self.old result self.new }
    {
        let number = self.take_compact(0, u64::from(u16::MAX))?;
        Ok(number as u16)
    }

    /// A compact integer below 2^32, refused as `Short`, `TooWide` or `NotShortest`.
    pub fn take_compact_u32(&mut self) -> Result<u32, WireFault>
        ensures { Takes compact_u32 self.old result self.new }
    {
        let number = self.take_compact(4, u64::from(u32::MAX))?;
        Ok(number as u32)
    }

    /// A compact integer below 2^64, refused as `Short`, `TooWide` or `NotShortest`.
    pub fn take_compact_u64(&mut self) -> Result<u64, WireFault>
        ensures { Takes compact_u64 self.old result self.new }
    {
        self.take_compact(8, u64::MAX)
    }

    /// The length of a list of at most `limit` items: a compact integer below 2^32, which is
    /// refused as `TooMany` over the limit.
    pub fn take_length(&mut self, limit: u32) -> Result<u32, WireFault>
        ensures { Takes (length_form limit) self.old result self.new }
    {
        let mut here = self.fork();
        let length = here.take_compact_u32()?;
        if length <= limit {
            *self = here;
            Ok(length)
        } else {
            Err(self.fault(Why::TooMany))
        }
    }

    /// An account, its 32 bytes as they are, refused as `Short` where fewer are left.
    pub fn take_account(&mut self) -> Result<AccountId, WireFault>
        ensures { Takes account_form self.old result self.new }
    {
        // An array in a Result stands behind its tag, at an odd place, from where it is slow to
        // copy.
        let mut bytes = [0; 32];
        bytes.copy_from_slice(self.take_bytes(32)?);
        Ok(AccountId::from_bytes(&bytes))
    }

    // A compact integer of a type that has at most `most` value bytes and the numbers up to `max`.
    fn take_compact(&mut self, most: usize, max: u64) -> Result<u64, WireFault>
        requires { Suits most (max + 1) 9 }
        ensures { Takes (compact_form most (max + 1) 9) self.old result self.new }
    {
        match read_compact(self.rest, most, max) {
            Ok((number, size)) => {
                self.at += size as u64;
                self.rest = self.rest.split_at(size).1;
                Ok(number)
            }
            Err(why) => Err(self.fault(why)),
        }
    }

    // A refusal of what begins here.
    fn fault(&self, why: Why) -> WireFault
        ensures { result ≡ record { at = self.now.at; why = why } }
    {
        WireFault { at: self.at, why }
    }
}

// The first `n` bytes and those behind them, if there are as many.
fn split_front(bytes: &[u8], n: usize) -> Option<(&[u8], &[u8])>
    ensures { MatchOption result (length bytes.now < n)
        (λ parts. (n ≤ length bytes.now) × (parts.0.now ≡ take n bytes.now)
        × (parts.1.now ≡ drop n bytes.now) × IsBytes parts.0.now) }
{
    if n <= bytes.len() {
        Some(bytes.split_at(n))
    } else {
        None
    }
}
