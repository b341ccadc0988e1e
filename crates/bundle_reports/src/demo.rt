//! What `demo` makes of a generated election.
ghost use Rattle.std.specs.Prelude.{◌≡◌, ◌++◌, ◌≤◌, IsOk, IfOk, OnOk};
ghost use Rattle.npos_base.specs.declared.limits.TheConstants.{MOST_SEATS, MOST_VOTERS};
ghost use Rattle.election_work.specs.Mining.{due_of};
ghost use Rattle.bundle_reports.specs.Demo.{mined_line, election_text, demo_report};

use crate::answers::tell_finding;
use crate::numbers::{tell_judged, tell_size};
use demo_election::generated;
use election_snapshot::Snapshot;
use election_work::{Mined, Mining, mine_snapshot};
use npos_base::{Miner, NoMemory};
use std::alloc::Global;
use told_lines::{Piece, tell};

/// Appends the line of what a miner made, or of what was found in its place.
fn tell_mining(text: &mut Vec<u8>, whose: &str, mining: &Mining) -> Result<(), NoMemory>
    ensures { OnOk result (text.new.items ≡ text.old.items
        ++ mined_line whose.now (due_of mining.now)) }
{
    match mining {
        Mining::Done(mined) => tell_judged(text, whose, &mined.score, mined.verdict),
        Mining::Refused(finding) => {
            tell(text, &[Piece::Words(whose), Piece::Words(" ")])?;
            tell_finding(text, *finding)
        }
    }
}

/// The snapshot of what was mined.
fn back_from(mining: Mining) -> Snapshot
    requires { IsOk (due_of mining) }
    ensures { IfOk (due_of mining) (λ outcome. result ≡ outcome.snapshot) }
{
    match mining {
        Mining::Done(mined) => {
            let Mined { snapshot, .. } = mined;
            snapshot
        }
        Mining::Refused(_) => unreachable!(),
    }
}

/// The lines of an election. The weights of the fill go before the other miner begins.
fn tell_election(alloc: Global, text: &mut Vec<u8>, snapshot: Snapshot) -> Result<(), NoMemory>
    ensures { OnOk result (text.new.items ≡ text.old.items ++ election_text snapshot) }
{
    tell_size(text, &snapshot)?;
    let filled = mine_snapshot(alloc, snapshot, Miner::Fill)?;
    tell_mining(text, "fill", &filled)?;
    let back = back_from(filled);
    let packed = mine_snapshot(alloc, back, Miner::Seq)?;
    tell_mining(text, "seq", &packed)
}

/// The text on the election that a seed generates.
pub fn demo_text(alloc: Global, seed: u64, voters: u32, seats: u32) -> Result<Vec<u8>, NoMemory>
    requires some_voters { 1 ≤ voters }
    requires few_voters { voters ≤ MOST_VOTERS }
    requires some_seats { 1 ≤ seats }
    requires few_seats { seats ≤ MOST_SEATS }
    ensures { IfOk result (λ text. text.items ≡ (demo_report seed voters seats).text) }
{
    let snapshot = generated(alloc, seed, voters, seats)?;
    let mut text = Vec::new(alloc);
    tell_election(alloc, &mut text, snapshot)?;
    Ok(text)
}
