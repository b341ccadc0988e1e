//! Work in JSON: null, a solution with its claim, or a committee with its edges.
ghost use Rattle.std.specs.Prelude.{◌≡◌, ◌∷◌, codes, option_map, IfOk};
ghost use Rattle.json.specs.Token.{begin_object, key as key_token};
ghost use Rattle.serde_json.specs.View.{view};
ghost use Rattle.bundle_json.specs.Json.{claim_json, work_json};
ghost use Rattle.bundle_json.specs.Shape.{solution_from, solution_in, packed_in, plain_in, work_in};
ghost use Rattle.bundle_json.specs.Text.{Appends, Front};
ghost use Rattle.block_wire.specs.declared.bundle.Work.TheVariants.{Packed as PackedWork, Plain as PlainWork};

use crate::item::{list_at, list_in, write_hex, write_list};
use crate::limits::MOST_EDGES;
use crate::parts::{claim_at, claim_in, with_keys};
use crate::tokens::{Miss, close_object, key, text_at};
use block_wire::Work;
use hex::FromHexError;
use itoa::Buffer;
use json::{Reader, Token, Writer};
use npos_base::{Edge, List, MOST_SOLUTION_BYTES, MOST_TARGETS, NoMemory, Score};
use serde_json::Value;
use std::alloc::Global;

/// Writes the work.
pub(crate) fn write_work(work: &Work, alloc: Global, out: &mut Writer) -> Result<(), NoMemory>
    ensures { Appends (work_json work.now) out.old result out.new }
{
    match work {
        Work::Nothing => {
            out.null()?;
            Ok(())
        }
        Work::Packed { claim, bytes } => write_packed(claim, bytes, alloc, out),
        Work::Plain { committee, edges } => write_plain(committee, edges, alloc, out),
    }
}

fn write_packed(
    claim: &Score,
    bytes: &List<u8>,
    alloc: Global,
    out: &mut Writer,
) -> Result<(), NoMemory>
    ensures { Appends (work_json (PackedWork claim.now bytes.now)) out.old result out.new }
{
    out.begin_object()?;
    out.key("claim")?;
    write_claim(claim, out)?;
    out.key("solution")?;
    write_hex(bytes.as_slice(), alloc, out)?;
    out.end_object()?;
    Ok(())
}

fn write_claim(claim: &Score, out: &mut Writer) -> Result<(), NoMemory>
    ensures { Appends (claim_json claim.now) out.old result out.new }
{
    out.begin_array()?;
    out.u64(claim.minimal)?;
    out.u64(claim.sum)?;
    out.string(Buffer::new().format(claim.squares))?;
    out.end_array()?;
    Ok(())
}

fn write_plain(
    committee: &List<u16>,
    edges: &List<Edge>,
    alloc: Global,
    out: &mut Writer,
) -> Result<(), NoMemory>
    ensures { Appends (work_json (PlainWork committee.now edges.now)) out.old result out.new }
{
    out.begin_object()?;
    out.key("committee")?;
    write_list(committee, alloc, out)?;
    out.key("edges")?;
    write_list(edges, alloc, out)?;
    out.end_object()?;
    Ok(())
}

/// The work that the value stands for, or none.
pub(crate) fn work_in(alloc: Global, value: &Value) -> Result<Option<Work>, NoMemory>
    ensures { IfOk result (λ work. work ≡ work_in (view value.now)) }
{
    if value.is_null() {
        Ok(Some(Work::Nothing))
    } else if value.get("claim").is_some() {
        packed_in(alloc, value)
    } else {
        plain_in(alloc, value)
    }
}

// A solution with its claim.
fn packed_in(alloc: Global, value: &Value) -> Result<Option<Work>, NoMemory>
    ensures { IfOk result (λ work. work ≡ packed_in (view value.now)) }
{
    let Some(object) = with_keys(value, 2) else {
        return Ok(None);
    };
    let Some(claim) = object.get("claim").and_then(claim_in) else {
        return Ok(None);
    };
    let Some(solution) = object.get("solution") else {
        return Ok(None);
    };
    match solution_in(alloc, solution)? {
        Some(bytes) => Ok(Some(Work::Packed { claim, bytes })),
        None => Ok(None),
    }
}

fn solution_in(alloc: Global, value: &Value) -> Result<Option<List<u8>>, NoMemory>
    ensures { IfOk result (λ bytes. bytes ≡ solution_in (view value.now)) }
{
    match value.as_str() {
        Some(text) => solution_from(alloc, text),
        None => Ok(None),
    }
}

// The bytes of a solution: two hexadecimal digits each.
fn solution_from(alloc: Global, text: &str) -> Result<Option<List<u8>>, NoMemory>
    ensures { IfOk result (λ bytes. bytes ≡ solution_from text.now) }
{
    if text.len() > 2 * MOST_SOLUTION_BYTES as usize {
        return Ok(None);
    }
    match hex::decode(alloc, text) {
        Ok(bytes) => Ok(Some(List::from_vec(bytes))),
        Err(FromHexError::OutOfMemory) => Err(NoMemory),
        Err(_) => Ok(None),
    }
}

// A committee with its edges.
fn plain_in(alloc: Global, value: &Value) -> Result<Option<Work>, NoMemory>
    ensures { IfOk result (λ work. work ≡ plain_in (view value.now)) }
{
    let Some(object) = with_keys(value, 2) else {
        return Ok(None);
    };
    let Some(committee) = object.get("committee") else {
        return Ok(None);
    };
    let Some(committee) = list_in(alloc, committee, MOST_TARGETS)? else {
        return Ok(None);
    };
    let Some(edges) = object.get("edges") else {
        return Ok(None);
    };
    match list_in(alloc, edges, MOST_EDGES)? {
        Some(edges) => Ok(Some(Work::Plain { committee, edges })),
        None => Ok(None),
    }
}

/// The work at the front of the tokens. The first key of an object tells which it is.
pub(crate) fn work_at(alloc: Global, tokens: &mut Reader<'_>) -> Result<Work, Miss>
    ensures { IfOk result (λ work. Front work_in 3 tokens.old work tokens.new) }
{
    match tokens.next() {
        Some(Token::Null) => return Ok(Work::Nothing),
        Some(Token::BeginObject) => {}
        _ => return Err(Miss::Otherwise),
    }
    let Ok(Some(first)) = tokens.next_key() else {
        return Err(Miss::Otherwise);
    };
    if first == "claim" {
        packed_at(alloc, tokens)
    } else if first == "committee" {
        plain_at(alloc, tokens)
    } else {
        Err(Miss::Otherwise)
    }
}

// A solution with its claim, behind the key of the claim.
fn packed_at(alloc: Global, tokens: &mut Reader<'_>) -> Result<Work, Miss>
    ensures { IfOk result (λ work. Front work_in 3
        (begin_object ∷ key_token (codes "claim") ∷ tokens.old) work tokens.new) }
{
    let claim = claim_at(tokens)?;
    key(tokens, "solution")?;
    let solution = text_at(tokens)?;
    close_object(tokens)?;
    match solution_from(alloc, solution)? {
        Some(bytes) => Ok(Work::Packed { claim, bytes }),
        None => Err(Miss::Otherwise),
    }
}

// A committee with its edges, behind the key of the committee.
fn plain_at(alloc: Global, tokens: &mut Reader<'_>) -> Result<Work, Miss>
    ensures { IfOk result (λ work. Front work_in 3
        (begin_object ∷ key_token (codes "committee") ∷ tokens.old) work tokens.new) }
{
    let committee = list_at(alloc, tokens, MOST_TARGETS)?;
    key(tokens, "edges")?;
    let edges = list_at(alloc, tokens, MOST_EDGES)?;
    close_object(tokens)?;
    Ok(Work::Plain { committee, edges })
}
