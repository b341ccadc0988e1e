//! What a check finds wrong.
ghost use Rattle.std.specs.Prelude.{◌≡◌};
ghost use Rattle.election_check.specs.First.{verdict_of};

use crate::Verdict;
use npos_base::Score;

/// What is wrong with a solution or with weights. None of it is a Yes: a check that answers one has
/// refused. The verdict of the same name tells it, and says what it means.
#[derive(Clone, Copy)]
pub(crate) enum Fault {
    NoVoter(u32),
    NoTarget(u16),
    VoterTwice(u32),
    TargetTwice(u16),
    NotNominated { voter: u32, target: u16 },
    BadShare(u32),
    WrongSize(u32),
    WrongScore(Score),
    Outweighed { target: u16, prescore: u64 },
    Overspent(u32),
}

impl Fault {
    /// The verdict that tells it.
    pub(crate) fn verdict(self) -> Verdict
        ensures { result ≡ verdict_of self }
    {
        match self {
            Fault::NoVoter(voter) => Verdict::NoVoter(voter),
            Fault::NoTarget(target) => Verdict::NoTarget(target),
            Fault::VoterTwice(voter) => Verdict::VoterTwice(voter),
            Fault::TargetTwice(target) => Verdict::TargetTwice(target),
            Fault::NotNominated { voter, target } => Verdict::NotNominated { voter, target },
            Fault::BadShare(voter) => Verdict::BadShare(voter),
            Fault::WrongSize(found) => Verdict::WrongSize(found),
            Fault::WrongScore(actual) => Verdict::WrongScore(actual),
            Fault::Outweighed { target, prescore } => Verdict::Outweighed { target, prescore },
            Fault::Overspent(voter) => Verdict::Overspent(voter),
        }
    }
}
