//! What is told of a target that is denied.

/// A target outside a committee that is denied a seat, and whom by: a group of voters that all
/// nominate it, and hold the stake of more seats than they nominate members.
#[derive(Debug, Drop)]
pub struct Denied {
    /// the position of the target
    pub target: u16,
    /// the positions of the voters, rising
    pub group: Vec<u32>,
    /// the members that some voter of the group nominates, rising
    pub members: Vec<u16>,
    /// the stake of the group
    pub stake: u64,
    /// how many seats that stake stands for, rounded down
    pub seats: u64,
}
