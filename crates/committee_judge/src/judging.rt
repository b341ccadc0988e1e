//! Whom the committee of a work denies a seat.
ghost use Rattle.std.specs.Prelude.{IfOk};
ghost use Rattle.committee_judge.specs.Committees.{committee_in};
ghost use Rattle.committee_judge.specs.Judgements.{IsJudging};
ghost use Rattle.committee_judge.specs.Reports.{NamesWithin};

use crate::seating::{Seating, seat_committee};
use committee_answer::{Denied, find_denied};
use election_snapshot::Snapshot;
use election_work::{Election, Finding};
use npos_base::NoMemory;
use std::alloc::Global;

/// An election, and whom the committee of its work denies a seat: None where it denies nobody, which
/// is where it has PJR+ of Brill and Peters (2023), with stakes.
#[derive(Drop)]
pub struct Judged {
    pub snapshot: Snapshot,
    pub denied: Option<Denied>,
}

/// The judgement on a committee, or what is found in its place: the verdict on members that are no
/// committee, or that there is no work.
#[derive(Drop)]
pub enum Judging {
    Done(Judged),
    Refused(Finding),
}

/// Judges the committee of the work on an election whose bundle has so many bytes. Of the work the
/// committee alone is looked at: for plain work its list of members, for a packed solution the
/// targets in it. The claimed score plays no part, and neither do plain edges.
pub fn judge_election(alloc: Global, election: Election, size: u64) -> Result<Judging, NoMemory>
    ensures judging { IfOk result (IsJudging election.snapshot (committee_in size election)) }
    ensures within { IfOk result NamesWithin }
{
    match seat_committee(alloc, election, size)? {
        Seating::Stands(seated) => {
            let denied = find_denied(alloc, &seated.snapshot, seated.weights.committee())?;
            Ok(Judging::Done(Judged {
                snapshot: seated.snapshot,
                denied,
            }))
        }
        Seating::Refused(finding) => Ok(Judging::Refused(finding)),
    }
}
