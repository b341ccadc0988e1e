//! The parts of a bundle in JSON that take no memory: numbers, texts, and what arrays and objects
//! have.
ghost use Rattle.std.specs.Prelude.{◌≡◌, ◌≢◌, ℕ, List, option_map, IfOk};
ghost use Rattle.serde_json.specs.Find.{get};
ghost use Rattle.serde_json.specs.View.{view};
ghost use Rattle.bundle_json.specs.Shape.{whole_in, figure_in, account_from, account_in, with_items, with_keys, edge_in, claim_in};
ghost use Rattle.bundle_json.specs.Text.{Front};

use crate::tokens::{Miss, close_array, open_array, text_at, u64_at};
use hex::FromHex;
use itoa::Buffer;
use json::Reader;
use npos_base::{AccountId, Edge, Score};
use serde_json::Value;

/// A whole number of 16 bits.
pub(crate) fn u16_in(value: &Value) -> Option<u16>
    ensures { result ≡ whole_in 16 (view value.now) }
{
    u16::try_from(value.as_u64()?).ok()
}

/// A whole number of 32 bits.
pub(crate) fn u32_in(value: &Value) -> Option<u32>
    ensures { result ≡ whole_in 32 (view value.now) }
{
    u32::try_from(value.as_u64()?).ok()
}

/// A whole number of 64 bits.
pub(crate) fn u64_in(value: &Value) -> Option<u64>
    ensures { result ≡ whole_in 64 (view value.now) }
{
    value.as_u64()
}

/// The number of 128 bits that the text is in decimal. A text with a sign or a needless leading
/// zero is not what the number is written as.
pub(crate) fn figure_in(text: &str) -> Option<u128>
    ensures { result ≡ figure_in text.now }
{
    match text.parse::<u128>() {
        Ok(number) => if Buffer::new().format(number) == text {
            Some(number)
        } else {
            None
        },
        Err(_) => None,
    }
}

/// The account that the text is: 64 hexadecimal digits.
pub(crate) fn account_from(text: &str) -> Option<AccountId>
    ensures { result ≡ account_from text.now }
{
    match <[u8; 32]>::from_hex(text) {
        Ok(bytes) => Some(AccountId::from_bytes(&bytes)),
        Err(_) => None,
    }
}

/// An account.
pub(crate) fn account_in(value: &Value) -> Option<AccountId>
    ensures { result ≡ account_in (view value.now) }
{
    account_from(value.as_str()?)
}

/// The value itself, where it is an array of exactly so many items.
#[tactic(auto, using(crate::proofs::Lists::length_items))]
fn with_items(value: &Value, count: usize) -> Option<&Value>
    ensures { option_map (λ array. view array.now) result ≡ with_items count (view value.now) }
{
    if value.as_array()?.len() == count {
        Some(value)
    } else {
        None
    }
}

/// The value itself, where it is an object with exactly so many keys.
#[tactic(auto, using(crate::proofs::Lists::length_members))]
pub(crate) fn with_keys(value: &Value, count: usize) -> Option<&Value>
    ensures { option_map (λ object. view object.now) result ≡ with_keys count (view value.now) }
{
    if value.as_object()?.len() == count {
        Some(value)
    } else {
        None
    }
}

/// The value that an object has under the key, and the object without it.
pub(crate) fn split(object: Value, key: &str) -> (Option<Value>, Value)
    ensures found { option_map view result.0 ≡ get key.now (view object) }
    ensures others { (other : List ℕ) → other ≢ key.now
        → get other (view result.1) ≡ get other (view object) }
{
    match object {
        Value::Object(mut members) => {
            let found = members.remove(key);
            (found, Value::Object(members))
        }
        other => (None, other),
    }
}

/// An edge: an array of its voter, its target and its amount.
pub(crate) fn edge_in(value: &Value) -> Option<Edge>
    ensures { result ≡ edge_in (view value.now) }
{
    let array = with_items(value, 3)?;
    Some(Edge {
        voter: u32_in(array.get(0)?)?,
        target: u16_in(array.get(1)?)?,
        amount: u64_in(array.get(2)?)?,
    })
}

/// A claim: an array of the minimal and the sum, which are numbers, and the squares, a text.
pub(crate) fn claim_in(value: &Value) -> Option<Score>
    ensures { result ≡ claim_in (view value.now) }
{
    let array = with_items(value, 3)?;
    Some(Score {
        minimal: u64_in(array.get(0)?)?,
        sum: u64_in(array.get(1)?)?,
        squares: figure_in(array.get(2)?.as_str()?)?,
    })
}

/// The claim at the front of the tokens.
pub(crate) fn claim_at(tokens: &mut Reader<'_>) -> Result<Score, Miss>
    ensures { IfOk result (λ claim. Front claim_in 1 tokens.old claim tokens.new) }
{
    open_array(tokens)?;
    let minimal = u64_at(tokens)?;
    let sum = u64_at(tokens)?;
    let squares = figure_in(text_at(tokens)?).ok_or(Miss::Otherwise)?;
    close_array(tokens)?;
    Ok(Score {
        minimal,
        sum,
        squares,
    })
}
