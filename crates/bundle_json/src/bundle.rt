//! Bundles in JSON.
ghost use Rattle.std.specs.Prelude.{◌≡◌, ◌≢◌, Some, option_and_then, IfOk};
ghost use Rattle.serde_json.specs.Read.{read};
ghost use Rattle.serde_json.specs.View.{view};
ghost use Rattle.serde_json.specs.Written.{compact_text};
ghost use Rattle.bundle_json.specs.Json.{json_of};
ghost use Rattle.bundle_json.specs.Shape.{bundle_of};
ghost use Rattle.bundle_json.specs.Text.{Appends, Front, bundle_in_text};
ghost use Rattle.block_wire.specs.Bundles.{bundle_form};

use crate::fault::JsonFault;
use crate::item::{list_at, list_from, list_in, write_list};
use crate::parts::{split, u32_in, with_keys};
use crate::tokens::{Miss, close_object, key, open_object, u32_at};
use crate::work::{work_at, work_in, write_work};
use block_wire::{Bundle, Work};
use json::{Reader, Scratch, Writer};
use npos_base::{List, MOST_TARGETS, MOST_VOTERS, NoMemory};
use serde_json::Value;
use simdutf8::compat::from_utf8;
use std::alloc::Global;

/// Bytes of the text of a bundle besides its lists, about.
const FRAME: usize = 1024;

/// Bytes of a target.
const TARGET: usize = 67;

/// Bytes of a voter without its votes, about.
const VOTER: usize = 128;

/// Bytes of a vote, or of a member, at most.
const VOTE: usize = 6;

/// Bytes of an edge, about.
const EDGE: usize = 32;

/// The bundle as JSON with no blank in it: keys in rising order, accounts and bytes in lower-case
/// hexadecimal, the squares of a claim as a text.
pub fn bundle_to_json(alloc: Global, bundle: &Bundle) -> Result<List<u8>, NoMemory>
    ensures { IfOk result (λ text. text ≡ compact_text (json_of bundle.now)) }
{
    let mut out = Writer::new(Vec::with_capacity(alloc, room_of(bundle))?);
    write_bundle(bundle, alloc, &mut out)?;
    Ok(List::from_vec(out.into_inner()))
}

// About as many bytes as the text of a bundle has, so that it need not be moved as it grows. Nothing
// rests on it but time.
fn room_of(bundle: &Bundle) -> usize {
    let mut votes: usize = 0;
    for voter in bundle.voters.as_slice() {
        votes = votes.saturating_add(voter.votes.len());
    }
    let work = match &bundle.work {
        Work::Nothing => 0,
        Work::Packed { bytes, .. } => bytes.len().saturating_mul(2),
        Work::Plain { committee, edges } => committee
            .len()
            .saturating_mul(VOTE)
            .saturating_add(edges.len().saturating_mul(EDGE)),
    };
    FRAME
        .saturating_add(bundle.targets.len().saturating_mul(TARGET))
        .saturating_add(bundle.voters.len().saturating_mul(VOTER))
        .saturating_add(votes.saturating_mul(VOTE))
        .saturating_add(work)
}

fn write_bundle(bundle: &Bundle, alloc: Global, out: &mut Writer) -> Result<(), NoMemory>
    ensures { Appends (json_of bundle.now) out.old result out.new }
{
    out.begin_object()?;
    out.key("seats")?;
    out.u64(u64::from(bundle.seats))?;
    out.key("targets")?;
    write_list(&bundle.targets, alloc, out)?;
    out.key("voters")?;
    write_list(&bundle.voters, alloc, out)?;
    out.key("work")?;
    write_work(&bundle.work, alloc, out)?;
    out.end_object()?;
    Ok(())
}

/// The bundle that a text of JSON stands for. Of a key that is written twice, the last counts. The
/// text is refused as `Json` where it has no reading as JSON, and as `Shape` where it has one that
/// stands for no bundle; it determines every answer but want of memory.
#[tactic(auto, using(crate::proofs::RangeLemmas::bundle_range, crate::proofs::Readings::has_reading, crate::proofs::Readings::has_no_reading))]
pub fn bundle_from_json(alloc: Global, text: &[u8]) -> Result<Bundle, JsonFault>
    ensures determined { result ≢ Err JsonFault.NoMemory → result ≡ bundle_in_text text.now }
    ensures in_range { IfOk result bundle_form.in_range }
{
    let Ok(text) = from_utf8(text) else {
        return Err(JsonFault::Json);
    };
    match bundle_from_tokens(alloc, text) {
        Ok(bundle) => return Ok(bundle),
        Err(Miss::NoMemory) => return Err(JsonFault::NoMemory),
        Err(Miss::Otherwise) => {}
    }
    let value = match Value::from_str(alloc, text) {
        Ok(value) => value,
        Err(error) if error.is_memory() => return Err(JsonFault::NoMemory),
        Err(_) => return Err(JsonFault::Json),
    };
    match bundle_in(alloc, value) {
        Ok(Some(bundle)) => Ok(bundle),
        Ok(None) => Err(JsonFault::Shape),
        Err(NoMemory) => Err(JsonFault::NoMemory),
    }
}

// The bundle that the text stands for, where it stands as bundles are written: each key once, in
// rising order. It is read from the tokens, with no value between; where it stands otherwise, the
// caller reads it again as a value.
fn bundle_from_tokens(alloc: Global, text: &str) -> Result<Bundle, Miss>
    ensures { IfOk result (λ bundle. option_and_then bundle_of (read text.now) ≡ Some bundle) }
{
    let mut scratch = Scratch::new(alloc);
    let mut tokens = Reader::new(text, &mut scratch)?;
    let bundle = bundle_at(alloc, &mut tokens)?;
    if tokens.next().is_some() {
        return Err(Miss::Otherwise);
    }
    Ok(bundle)
}

fn bundle_at(alloc: Global, tokens: &mut Reader<'_>) -> Result<Bundle, Miss>
    ensures { IfOk result (λ bundle. Front bundle_of 4 tokens.old bundle tokens.new) }
{
    open_object(tokens)?;
    key(tokens, "seats")?;
    let seats = u32_at(tokens)?;
    key(tokens, "targets")?;
    let targets = list_at(alloc, tokens, MOST_TARGETS)?;
    key(tokens, "voters")?;
    let voters = list_at(alloc, tokens, MOST_VOTERS)?;
    key(tokens, "work")?;
    let work = work_at(alloc, tokens)?;
    close_object(tokens)?;
    Ok(Bundle {
        seats,
        targets,
        voters,
        work,
    })
}

// The bundle that the value stands for, or none. The voters are most of it: they go as they are
// read, and what is read behind them has their room.
fn bundle_in(alloc: Global, value: Value) -> Result<Option<Bundle>, NoMemory>
    ensures { IfOk result (λ bundle. bundle ≡ bundle_of (view value)) }
{
    let Some(object) = with_keys(&value, 4) else {
        return Ok(None);
    };
    let Some(seats) = object.get("seats").and_then(u32_in) else {
        return Ok(None);
    };
    let Some(targets) = object.get("targets") else {
        return Ok(None);
    };
    let Some(targets) = list_in(alloc, targets, MOST_TARGETS)? else {
        return Ok(None);
    };
    let (voters, others) = split(value, "voters");
    let Some(voters) = voters else {
        return Ok(None);
    };
    let Some(voters) = list_from(alloc, voters, MOST_VOTERS)? else {
        return Ok(None);
    };
    let Some(work) = others.get("work") else {
        return Ok(None);
    };
    let Some(work) = work_in(alloc, work)? else {
        return Ok(None);
    };
    Ok(Some(Bundle {
        seats,
        targets,
        voters,
        work,
    }))
}
