//! Reading compact integers.
ghost use Rattle.std.specs.Prelude.{◌≡◌, ◌+◌, ◌≤◌, ◌<◌, length, IfOk};
ghost use Rattle.scale_wire.specs.Form.{IsBytes};
ghost use Rattle.scale_wire.specs.LittleEndian.{number_from};
ghost use Rattle.scale_wire.specs.Compact.{mode_of, OneByte, TwoBytes, FourBytes, Big};
ghost use Rattle.scale_wire.specs.CompactSteps.{ReadsMode, ReadsCompact};

use crate::fault::Why;

// The compact integer that the bytes begin with, of a type that has at most `most` value bytes and
// the numbers up to `max`; and how many bytes it has.
pub(crate) fn read_compact(bytes: &[u8], most: usize, max: u64) -> Result<(u64, usize), Why>
    requires { most ≤ 8 }
    ensures read { ReadsCompact most (max + 1) bytes.now result }
    ensures within { IfOk result (λ read. read.1 ≤ length bytes.now) }
    ensures are_bytes { IsBytes bytes.now }
{
    if bytes.is_empty() {
        return Err(Why::Short);
    }
    let (number, size) = match bytes[0] % 4 {
        0 => (u64::from(bytes[0] / 4), 1),
        1 => (two_bytes(bytes)?, 2),
        2 => (four_bytes(bytes)?, 4),
        _ => (many_bytes(bytes, most)?, usize::from(bytes[0] / 4) + 5),
    };
    if number <= max {
        Ok((number, size))
    } else {
        Err(Why::TooWide)
    }
}

// The number in two bytes.
fn two_bytes(bytes: &[u8]) -> Result<u64, Why>
    ensures { ReadsMode 8 TwoBytes bytes.now result }
{
    if bytes.len() < 2 {
        return Err(Why::Short);
    }
    let number = u16::from_le_bytes([bytes[0], bytes[1]]) / 4;
    if number < 1 << 6 {
        Err(Why::NotShortest)
    } else {
        Ok(u64::from(number))
    }
}

// The number in four bytes.
fn four_bytes(bytes: &[u8]) -> Result<u64, Why>
    ensures { ReadsMode 8 FourBytes bytes.now result }
{
    if bytes.len() < 4 {
        return Err(Why::Short);
    }
    let number = u32::from_le_bytes([bytes[0], bytes[1], bytes[2], bytes[3]]) / 4;
    if number < 1 << 14 {
        Err(Why::NotShortest)
    } else {
        Ok(u64::from(number))
    }
}

// The number in as many value bytes as the first byte announces.
fn many_bytes(bytes: &[u8], most: usize) -> Result<u64, Why>
    requires some { 0 < length bytes.now }
    requires most { most ≤ 8 }
    ensures { ReadsMode most Big bytes.now result }
{
    let count = usize::from(bytes[0] / 4) + 4;
    if count > most {
        return Err(Why::TooWide);
    }
    if bytes.len() < 1 + count {
        return Err(Why::Short);
    }
    let number = number_from(&bytes[1..1 + count]);
    if number < 1 << 30 {
        return Err(Why::NotShortest);
    }
    if bytes[count] == 0 {
        Err(Why::NotShortest)
    } else {
        Ok(number)
    }
}

// The number that up to eight bytes are, the least significant first.
fn number_from(bytes: &[u8]) -> u64
    requires { length bytes.now ≤ 8 }
    ensures { result ≡ number_from bytes.now }
{
    let mut wide = [0; 8];
    wide[..bytes.len()].copy_from_slice(bytes);
    u64::from_le_bytes(wide)
}
