//! The digits of accounts.
ghost use Rattle.std.specs.Prelude.{◌≡◌, ◌+◌, ◌*◌, ◌/◌, ◌%◌, [], ◌∷◌, length, slice_index};
ghost use Rattle.std.specs.Int.{w128, to_be_bytes};
ghost use Rattle.hex.specs.Hex.{encode_lower, lower_digits};
ghost use Rattle.told_lines.specs.Texts.{account_text};

use npos_base::AccountId;

/// The two digits of each byte, those of one byte behind those of the one before it.
static PAIRS: [u8; 512] =
    *b"000102030405060708090a0b0c0d0e0f101112131415161718191a1b1c1d1e1f202122232425262728292a2b2c2d2e2f303132333435363738393a3b3c3d3e3f404142434445464748494a4b4c4d4e4f505152535455565758595a5b5c5d5e5f606162636465666768696a6b6c6d6e6f707172737475767778797a7b7c7d7e7f808182838485868788898a8b8c8d8e8f909192939495969798999a9b9c9d9e9fa0a1a2a3a4a5a6a7a8a9aaabacadaeafb0b1b2b3b4b5b6b7b8b9babbbcbdbebfc0c1c2c3c4c5c6c7c8c9cacbcccdcecfd0d1d2d3d4d5d6d7d8d9dadbdcdddedfe0e1e2e3e4e5e6e7e8e9eaebecedeeeff0f1f2f3f4f5f6f7f8f9fafbfcfdfeff";

/// The two digits of a byte, the first in the lower bits.
#[inline(always)]
fn pair_of(byte: u8) -> u16
    ensures { result ≡ slice_index lower_digits (byte / 16) + slice_index lower_digits (byte % 16) * 256 }
{
    let from = 2 * byte as usize;
    u16::from_le_bytes([PAIRS[from], PAIRS[from + 1]])
}

/// The digits of four bytes, which are put together as one number.
#[inline(always)]
fn digits_of(first: u8, second: u8, third: u8, fourth: u8) -> [u8; 8]
    ensures { result ≡ encode_lower (first ∷ second ∷ third ∷ fourth ∷ []) }
{
    let number = u64::from(pair_of(first))
        + u64::from(pair_of(second)) * 0x1_0000
        + u64::from(pair_of(third)) * 0x1_0000_0000
        + u64::from(pair_of(fourth)) * 0x1_0000_0000_0000;
    number.to_le_bytes()
}

/// Writes the digits of half an account, as the crate `hex` would: the digits of accounts are most of
/// what a replay writes. They are stored eight at a time, since whoever copies what was just stored in
/// smaller pieces waits until the last of these has arrived.
fn write_half(digits: &mut [u8], half: u128)
    requires { length digits.old ≡ 32 }
    ensures { digits.new ≡ encode_lower (to_be_bytes w128 half) }
{
    let bytes = half.to_be_bytes();
    for i in 0..4 {
        let from = 4 * i;
        let four = digits_of(
            bytes[from],
            bytes[from + 1],
            bytes[from + 2],
            bytes[from + 3],
        );
        digits[2 * from..2 * from + 8].copy_from_slice(&four);
    }
}

/// Writes the digits of an account, half by half: the bytes of a half are stored at once, as the
/// number that they are, and into an array of all 32 they would be moved one by one.
pub(crate) fn write_account(digits: &mut [u8], who: AccountId)
    requires { length digits.old ≡ 64 }
    ensures { digits.new ≡ account_text who }
{
    write_half(&mut digits[..32], who.hi);
    write_half(&mut digits[32..], who.lo);
}
