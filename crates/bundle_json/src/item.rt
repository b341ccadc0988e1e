//! What stands in the arrays of a bundle.
ghost use Rattle.std.specs.Prelude.{◌≡◌, ℕ, suc, Option, IfOk};
ghost use Rattle.hex.specs.Hex.{encode_lower};
ghost use Rattle.serde_json.specs.Data.{Data, string};
ghost use Rattle.serde_json.specs.View.{view, items_view};
ghost use Rattle.bundle_json.specs.Json.{list_json};
ghost use Rattle.bundle_json.specs.Shape.{list_in, each};
ghost use Rattle.bundle_json.specs.Text.{Appends, AppendsTokens, Front, tokens_of};

use crate::parts::{account_from, account_in, edge_in, u16_in};
use crate::tokens::{Miss, close_array, open_array, text_at, u16_at, u32_at, u64_at};
use json::{Reader, Writer};
use npos_base::{AccountId, Edge, List, NoMemory};
use serde_json::Value;
use std::alloc::Global;

/// Items that a list from tokens has room for at first.
const FIRST_ITEMS: usize = 16;

/// A type whose values stand in arrays: `json` is what a value is written as, `read` the value
/// that JSON stands for, and `nests` how deep arrays and objects nest in it.
pub(crate) trait Item: Drop {
    ghost json: { Self → Data };

    ghost read: { Data → Option Self };

    ghost nests: { ℕ };

    /// Writes the item.
    fn write(&self, alloc: Global, out: &mut Writer) -> Result<(), NoMemory>
        ensures { Appends (json self.now) out.old result out.new };

    /// The item that the value stands for, or none.
    fn from_json(alloc: Global, value: &Value) -> Result<Option<Self>, NoMemory>
        ensures { IfOk result (λ item. item ≡ read (view value.now)) };

    /// The item at the front of the tokens.
    fn from_tokens(alloc: Global, tokens: &mut Reader<'_>) -> Result<Self, Miss>
        ensures { IfOk result (λ item. Front read nests tokens.old item tokens.new) };
}

/// Writes a text of hexadecimal digits in lower case, two for each byte.
pub(crate) fn write_hex(bytes: &[u8], alloc: Global, out: &mut Writer) -> Result<(), NoMemory>
    ensures { Appends (string (encode_lower bytes.now)) out.old result out.new }
{
    let digits = hex::encode(alloc, bytes)?;
    out.string(digits.as_str())?;
    Ok(())
}

/// Writes an array.
#[tactic(auto, using(crate::proofs::Lists::array_written))]
pub(crate) fn write_list<T: Item>(
    items: &List<T>,
    alloc: Global,
    out: &mut Writer,
) -> Result<(), NoMemory>
    ensures { Appends (list_json T.json items.now) out.old result out.new }
{
    out.begin_array()?;
    write_items(items.as_slice(), alloc, out)?;
    out.end_array()?;
    Ok(())
}

// The items, one behind the other.
fn write_items<T: Item>(items: &[T], alloc: Global, out: &mut Writer) -> Result<(), NoMemory>
    ensures { AppendsTokens (tokens_of T.json items.now) out.old result out.new }
{
    for item in items {
        item.write(alloc, out)?;
    }
    Ok(())
}

/// The items of an array of at most so many. Room for them is made at once.
#[tactic(auto, using(crate::proofs::Lists::length_items))]
pub(crate) fn list_in<T: Item>(
    alloc: Global,
    value: &Value,
    most: usize,
) -> Result<Option<List<T>>, NoMemory>
    ensures { IfOk result (λ list. list ≡ list_in T.read most (view value.now)) }
{
    let Some(items) = value.as_array() else {
        return Ok(None);
    };
    if items.len() > most {
        return Ok(None);
    }
    each(alloc, items)
}

// Each item as what it stands for, or none where one stands for nothing.
fn each<T: Item>(alloc: Global, items: &[Value]) -> Result<Option<List<T>>, NoMemory>
    ensures { IfOk result (λ list. list ≡ each T.read (items_view items.now)) }
{
    let mut found = Vec::with_capacity(alloc, items.len())?;
    for item in items {
        let Some(value) = T::from_json(alloc, item)? else {
            return Ok(None);
        };
        found.push(value)?;
    }
    Ok(Some(List::from_vec(found)))
}

/// The items of an array of at most so many, as `list_in` reads them. Each goes once it is read:
/// so what it stands for has the room of those before it.
#[tactic(auto, using(crate::proofs::Lists::length_items))]
pub(crate) fn list_from<T: Item>(
    alloc: Global,
    value: Value,
    most: usize,
) -> Result<Option<List<T>>, NoMemory>
    ensures { IfOk result (λ list. list ≡ list_in T.read most (view value)) }
{
    let Value::Array(items) = value else {
        return Ok(None);
    };
    if items.len() > most {
        return Ok(None);
    }
    each_from(alloc, items)
}

// Each item as what it stands for, or none where one stands for nothing.
fn each_from<T: Item>(alloc: Global, items: Vec<Value>) -> Result<Option<List<T>>, NoMemory>
    ensures { IfOk result (λ list. list ≡ each T.read (items_view items.items)) }
{
    let mut found = Vec::new(alloc);
    for item in items {
        let Some(value) = T::from_json(alloc, &item)? else {
            return Ok(None);
        };
        found.push(value)?;
    }
    Ok(Some(List::from_vec(found)))
}

/// The array of at most so many items at the front of the tokens.
pub(crate) fn list_at<T: Item>(
    alloc: Global,
    tokens: &mut Reader<'_>,
    most: usize,
) -> Result<List<T>, Miss>
    ensures { IfOk result
        (λ list. Front (list_in T.read most) (suc T.nests) tokens.old list tokens.new) }
{
    open_array(tokens)?;
    let mut found = Vec::with_capacity(alloc, most.min(FIRST_ITEMS))?;
    while !tokens.take_end_array() {
        if found.len() == most {
            return Err(Miss::Otherwise);
        }
        found.push(T::from_tokens(alloc, tokens)?)?;
    }
    Ok(List::from_vec(found))
}

impl Item for u16 {
    ghost use Rattle.bundle_json.specs.Json.{whole_json};
    ghost use Rattle.bundle_json.specs.Shape.{whole_in};

    ghost json = { whole_json };

    ghost read = { whole_in 16 };

    ghost nests = { 0 };

    fn write(&self, _alloc: Global, out: &mut Writer) -> Result<(), NoMemory> {
        out.u64(u64::from(*self))?;
        Ok(())
    }

    fn from_json(_alloc: Global, value: &Value) -> Result<Option<u16>, NoMemory> {
        Ok(u16_in(value))
    }

    fn from_tokens(_alloc: Global, tokens: &mut Reader<'_>) -> Result<u16, Miss> {
        u16_at(tokens)
    }
}

impl Item for AccountId {
    ghost use Rattle.bundle_json.specs.Json.{account_json};
    ghost use Rattle.bundle_json.specs.Shape.{account_in};

    ghost json = { account_json };

    ghost read = { account_in };

    ghost nests = { 0 };

    fn write(&self, alloc: Global, out: &mut Writer) -> Result<(), NoMemory> {
        write_hex(&self.to_bytes(), alloc, out)
    }

    fn from_json(_alloc: Global, value: &Value) -> Result<Option<AccountId>, NoMemory> {
        Ok(account_in(value))
    }

    fn from_tokens(_alloc: Global, tokens: &mut Reader<'_>) -> Result<AccountId, Miss> {
        account_from(text_at(tokens)?).ok_or(Miss::Otherwise)
    }
}

impl Item for Edge {
    ghost use Rattle.bundle_json.specs.Json.{edge_json};
    ghost use Rattle.bundle_json.specs.Shape.{edge_in};

    ghost json = { edge_json };

    ghost read = { edge_in };

    ghost nests = { 1 };

    fn write(&self, _alloc: Global, out: &mut Writer) -> Result<(), NoMemory> {
        out.begin_array()?;
        out.u64(u64::from(self.voter))?;
        out.u64(u64::from(self.target))?;
        out.u64(self.amount)?;
        out.end_array()?;
        Ok(())
    }

    fn from_json(_alloc: Global, value: &Value) -> Result<Option<Edge>, NoMemory> {
        Ok(edge_in(value))
    }

    fn from_tokens(_alloc: Global, tokens: &mut Reader<'_>) -> Result<Edge, Miss> {
        open_array(tokens)?;
        let voter = u32_at(tokens)?;
        let target = u16_at(tokens)?;
        let amount = u64_at(tokens)?;
        close_array(tokens)?;
        Ok(Edge {
            voter,
            target,
            amount,
        })
    }
}
