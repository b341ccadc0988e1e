//! Who makes a committee.
ghost use Rattle.std.specs.Prelude.{◌≡◌, IfSome};
ghost use Rattle.npos_base.specs.Miner.{is_packed, named, numbered, HasRounds};

use crate::limits::MOST_ROUNDS;

/// Who makes a committee. A new miner is a variant here, with its name and its number.
#[derive(Clone, Copy, Debug, PartialEq, Eq)]
pub enum Miner {
    /// The greedy fill, which always passes.
    Fill,
    /// Sequential Phragmén.
    Seq,
    /// PHRAGMMS, with so many balancing rounds after each pick.
    Mms(u32),
}

impl Miner {
    /// Whether what it makes is packed, and judged by the bytes of its solution.
    pub fn is_packed(self) -> bool
        ensures { result ≡ is_packed self }
    {
        match self {
            Miner::Fill => false,
            Miner::Seq | Miner::Mms(_) => true,
        }
    }

    /// The miner of this name. The rounds are those of PHRAGMMS; the others do not look at them.
    pub fn named(name: &str, rounds: u32) -> Option<Miner>
        ensures { result ≡ named name.now rounds }
    {
        match name {
            "fill" => Some(Miner::Fill),
            "seq" => Some(Miner::Seq),
            "mms" => Some(Miner::Mms(rounds)),
            _ => None,
        }
    }

    /// The miner of this number. PHRAGMMS wants 1 to 100 rounds, and the others do not look at
    /// them.
    pub fn numbered(number: u32, rounds: u32) -> Option<Miner>
        ensures miner { result ≡ numbered number rounds }
        ensures rounds { IfSome result HasRounds }
    {
        if number == 1 {
            return Some(Miner::Fill);
        }
        if number == 2 {
            return Some(Miner::Seq);
        }
        if number == 3 && 1 <= rounds && rounds <= MOST_ROUNDS {
            return Some(Miner::Mms(rounds));
        }
        None
    }
}
