//! Bundles that are written in their other form.
ghost use Rattle.std.specs.Prelude.{◌≡◌, Ok, IfOk};
ghost use Rattle.block_wire.specs.Bundles.{bundle_form};
ghost use Rattle.bundle_reports.specs.declared.asked.Rewriting.TheVariants as ways;
ghost use Rattle.bundle_reports.specs.Answer.{report_of};
ghost use Rattle.bundle_reports.specs.Bundles.{faulty};
ghost use Rattle.bundle_reports.specs.Rewriting.{pack_report, show_report, rewritten, rewrite_report};

use crate::Ending;
use crate::answers::{Answer, finding_answer};
use crate::asked::Rewriting;
use block_wire::Bundle;
use bundle_json::{JsonFault, bundle_from_json, bundle_to_json};
use election_work::{Finding, MOST_BUNDLE, NoElection};
use npos_base::NoMemory;
use scale_wire::fault::ReadFault;
use scale_wire::{Pen, Wire, read_whole};
use std::alloc::Global;
use told_lines::{Piece, tell};

/// The answer with the bundle's spelling.
fn spelled(alloc: Global, bundle: &Bundle) -> Result<Answer, NoMemory>
    requires { bundle_form.in_range bundle.now }
    ensures { IfOk result (λ answer. report_of answer ≡ pack_report (Ok bundle.now)) }
{
    let mut pen = Pen::new(alloc);
    bundle.write(&mut pen)?;
    Ok(Answer {
        text: pen.finish().into_vec(),
        ending: Ending::Done,
    })
}

/// The answer of a text that stands for no bundle.
fn unread(alloc: Global, line: &str) -> Result<Answer, NoMemory>
    ensures { IfOk result (λ answer. report_of answer ≡ faulty line.now) }
{
    let mut text = Vec::new(alloc);
    tell(&mut text, &[Piece::Words(line)])?;
    Ok(Answer {
        text,
        ending: Ending::BadInput,
    })
}

/// The bundle of a text of JSON, in SCALE.
fn pack(alloc: Global, text: &[u8]) -> Result<Answer, NoMemory>
    ensures { IfOk result (λ answer. report_of answer ≡ rewritten ways.Pack text.now) }
{
    match bundle_from_json(alloc, text) {
        Ok(bundle) => spelled(alloc, &bundle),
        Err(JsonFault::Json) => unread(alloc, "fault 0 json\n"),
        Err(JsonFault::Shape) => unread(alloc, "fault 0 shape\n"),
        Err(JsonFault::NoMemory) => Err(NoMemory),
    }
}

/// The answer with the bundle's text, a line.
fn shown(alloc: Global, bundle: &Bundle) -> Result<Answer, NoMemory>
    ensures { IfOk result (λ answer. report_of answer ≡ show_report (Ok bundle.now)) }
{
    let mut text = bundle_to_json(alloc, bundle)?.into_vec();
    text.push(b'\n')?;
    Ok(Answer {
        text,
        ending: Ending::Done,
    })
}

/// The bundle that the bytes spell, in JSON.
fn show(alloc: Global, bytes: &[u8]) -> Result<Answer, NoMemory>
    ensures { IfOk result (λ answer. report_of answer ≡ rewritten ways.Show bytes.now) }
{
    match read_whole::<Bundle>(alloc, bytes) {
        Ok(bundle) => shown(alloc, &bundle),
        Err(ReadFault::Wire(fault)) => finding_answer(
            alloc,
            Finding::Unread(NoElection::Refused(fault)),
        ),
        Err(ReadFault::NoMemory) => Err(NoMemory),
    }
}

/// The answer on the bytes of a bundle in one form: the bundle in the other.
pub fn rewrite_bytes(alloc: Global, bytes: Vec<u8>, way: Rewriting) -> Result<Answer, NoMemory>
    ensures { IfOk result (λ answer. report_of answer ≡ rewrite_report way bytes.items) }
{
    if bytes.len() > MOST_BUNDLE {
        return finding_answer(alloc, Finding::Unread(NoElection::Long));
    }
    match way {
        Rewriting::Pack => pack(alloc, bytes.as_slice()),
        Rewriting::Show => show(alloc, bytes.as_slice()),
    }
}
