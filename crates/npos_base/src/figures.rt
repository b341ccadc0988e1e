//! The numbers by which solutions are compared and told.
ghost use Rattle.std.specs.Prelude.{◌≡◌, ◌≤◌, ◌<◌, ◌*◌, ◌/◌};
ghost use Rattle.npos_base.specs.Edge.{place_of};
ghost use Rattle.npos_base.specs.Score.{is_better};

/// The score of a solution, as Substrate compares election results: the least support of a winner,
/// the sum of the supports and the sum of their squares, all in units of stake.
#[derive(Clone, Copy, Debug, PartialEq, Eq, Hash)]
pub struct Score {
    pub minimal: u64,
    pub sum: u64,
    pub squares: u128,
}

impl Score {
    /// Whether this score is better than the other: by a greater minimal, at equal ones by a
    /// greater sum, and at equal sums by smaller squares.
    pub fn better_than(&self, other: &Score) -> bool
        ensures { result ≡ is_better self.now other.now }
    {
        if self.minimal != other.minimal {
            return self.minimal > other.minimal;
        }
        if self.sum != other.sum {
            return self.sum > other.sum;
        }
        self.squares < other.squares
    }
}

/// One edge of plain weights: the voter at this position gives this amount of stake to the target
/// at that position.
#[derive(Clone, Copy, Debug, PartialEq, Eq, Hash)]
pub struct Edge {
    pub voter: u32,
    pub target: u16,
    pub amount: u64,
}

impl Edge {
    /// The place of the edge in the order by voter and then by target.
    pub fn place(&self) -> u64
        ensures { result ≡ place_of self.now }
    {
        u64::from(self.voter) * 65_536 + u64::from(self.target)
    }
}

/// The part of the value that `parts` of a whole stand for, rounded down.
pub fn part_of(value: u64, parts: u64, whole: u64) -> u64
    requires no_more { parts ≤ whole }
    requires some { 0 < whole }
    ensures { result ≡ value * parts / whole }
{
    (u128::from(value) * u128::from(parts) / u128::from(whole)) as u64
}
