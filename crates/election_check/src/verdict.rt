//! The verdict on a solution.
ghost use Rattle.std.specs.Prelude.{◌≡◌};
ghost use Rattle.election_check.specs.Number.{verdict_number};

use npos_base::Score;
use scale_wire::fault::Why;

/// What a check finds: that weights pass, or the first fault in the order of the check.
#[derive(Clone, Copy, Debug, PartialEq, Eq)]
pub enum Verdict {
    /// The weights are feasible and pass.
    Yes,
    /// The bytes are no spelling of a solution, for this reason at this place.
    Undecodable { at: u64, why: Why },
    /// No voter of the snapshot has this position.
    NoVoter(u32),
    /// No target of the snapshot has this position, or an edge leads to it and it is no member.
    NoTarget(u16),
    /// The voter stands in two entries.
    VoterTwice(u32),
    /// The member stands twice, or two edges of one voter lead to the target.
    TargetTwice(u16),
    /// An edge leads from a voter to a target that it does not nominate.
    NotNominated { voter: u32, target: u16 },
    /// A share of the voter's is 0, or its shares leave nothing for its last target.
    BadShare(u32),
    /// There are this many members, and not one for each seat.
    WrongSize(u32),
    /// The score is this one, and not the one that was claimed.
    WrongScore(Score),
    /// The nominators of this target outside have as much left as a seat stands for.
    Outweighed { target: u16, prescore: u64 },
    /// The voter gives more than its stake.
    Overspent(u32),
}

impl Verdict {
    /// The number of the verdict, from 0 for Yes.
    pub fn number(self) -> u8
        ensures { result ≡ verdict_number self }
    {
        match self {
            Verdict::Yes => 0,
            Verdict::Undecodable { .. } => 1,
            Verdict::NoVoter(_) => 2,
            Verdict::NoTarget(_) => 3,
            Verdict::VoterTwice(_) => 4,
            Verdict::TargetTwice(_) => 5,
            Verdict::NotNominated { .. } => 6,
            Verdict::BadShare(_) => 7,
            Verdict::WrongSize(_) => 8,
            Verdict::WrongScore(_) => 9,
            Verdict::Outweighed { .. } => 10,
            Verdict::Overspent(_) => 11,
        }
    }
}
