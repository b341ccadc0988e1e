//! What stands at the front of the tokens of a text, where it stands as it is written: each key of
//! an object once, in rising order. What stands otherwise is missed here and not refused: the value
//! that the text is tells what it stands for. So nothing rests on a miss but time.
ghost use Rattle.std.specs.Prelude.{◌≡◌, ◌∷◌, Some, None, IfOk, OnOk};
ghost use Rattle.json.specs.Json.{after_end_array, read_key};
ghost use Rattle.json.specs.Token.{begin_array, begin_object};
ghost use Rattle.serde_json.specs.Find.{as_str};
ghost use Rattle.bundle_json.specs.Shape.{whole_in};
ghost use Rattle.bundle_json.specs.Text.{Front};

use fast_float::Numeral;
use json::{Reader, Token};
use npos_base::NoMemory;
use std::alloc::{AllocError, AllocFailed};

/// Why nothing was found at the front.
#[derive(Clone, Copy)]
pub(crate) enum Miss {
    /// Something else stands there, or what is meant stands otherwise.
    Otherwise,
    /// There was no memory.
    NoMemory,
}

impl From<NoMemory> for Miss {
    fn from(_error: NoMemory) -> Miss {
        Miss::NoMemory
    }
}

impl From<AllocError> for Miss {
    fn from(_error: AllocError) -> Miss {
        Miss::NoMemory
    }
}

impl<T: Drop> From<AllocFailed<T>> for Miss {
    fn from(_error: AllocFailed<T>) -> Miss {
        Miss::NoMemory
    }
}

/// Passes the brace that opens an object.
pub(crate) fn open_object(tokens: &mut Reader<'_>) -> Result<(), Miss>
    ensures { OnOk result (tokens.old ≡ begin_object ∷ tokens.new) }
{
    match tokens.next() {
        Some(Token::BeginObject) => Ok(()),
        _ => Err(Miss::Otherwise),
    }
}

/// Passes the bracket that opens an array.
pub(crate) fn open_array(tokens: &mut Reader<'_>) -> Result<(), Miss>
    ensures { OnOk result (tokens.old ≡ begin_array ∷ tokens.new) }
{
    match tokens.next() {
        Some(Token::BeginArray) => Ok(()),
        _ => Err(Miss::Otherwise),
    }
}

/// Passes the key of that name.
pub(crate) fn key(tokens: &mut Reader<'_>, name: &str) -> Result<(), Miss>
    ensures { OnOk result (read_key tokens.old ≡ Some (Some name.now, tokens.new)) }
{
    match tokens.next_key() {
        Ok(Some(found)) => if found == name {
            Ok(())
        } else {
            Err(Miss::Otherwise)
        },
        _ => Err(Miss::Otherwise),
    }
}

/// Passes the brace that closes an object.
pub(crate) fn close_object(tokens: &mut Reader<'_>) -> Result<(), Miss>
    ensures { OnOk result (read_key tokens.old ≡ Some (None, tokens.new)) }
{
    match tokens.next_key() {
        Ok(None) => Ok(()),
        _ => Err(Miss::Otherwise),
    }
}

/// Passes the bracket that closes an array.
pub(crate) fn close_array(tokens: &mut Reader<'_>) -> Result<(), Miss>
    ensures { OnOk result (after_end_array tokens.old ≡ Some tokens.new) }
{
    if tokens.take_end_array() {
        Ok(())
    } else {
        Err(Miss::Otherwise)
    }
}

/// A text.
pub(crate) fn text_at<'a>(tokens: &mut Reader<'a>) -> Result<&'a str, Miss>
    ensures { IfOk result (λ text. Front as_str 0 tokens.old text.now tokens.new) }
{
    match tokens.next() {
        Some(Token::String(text)) => Ok(text),
        _ => Err(Miss::Otherwise),
    }
}

/// A whole number of 64 bits.
pub(crate) fn u64_at(tokens: &mut Reader<'_>) -> Result<u64, Miss>
    ensures { IfOk result (λ n. Front (whole_in 64) 0 tokens.old n tokens.new) }
{
    let Some(Token::Number(text)) = tokens.next() else {
        return Err(Miss::Otherwise);
    };
    let digits = text.as_bytes();
    if digits.is_empty() || digits[0] == b'-' {
        return Err(Miss::Otherwise);
    }
    match Numeral::scan(digits).to_u64() {
        Some(n) => Ok(n),
        None => Err(Miss::Otherwise),
    }
}

/// A whole number of 32 bits.
pub(crate) fn u32_at(tokens: &mut Reader<'_>) -> Result<u32, Miss>
    ensures { IfOk result (λ n. Front (whole_in 32) 0 tokens.old n tokens.new) }
{
    u32::try_from(u64_at(tokens)?).map_err(|_| Miss::Otherwise)
}

/// A whole number of 16 bits.
pub(crate) fn u16_at(tokens: &mut Reader<'_>) -> Result<u16, Miss>
    ensures { IfOk result (λ n. Front (whole_in 16) 0 tokens.old n tokens.new) }
{
    u16::try_from(u64_at(tokens)?).map_err(|_| Miss::Otherwise)
}
