//! The limits that several crates keep, each named once. Contracts and definitions cite them by
//! these names.

/// Validators that one nominator names, and votes of one voter.
pub const MOST_NOMINATIONS: usize = 24;

/// Validators that there are at a time.
pub const MOST_VALIDATORS: usize = 2048;

/// Targets of a snapshot. Each validator can be one.
pub const MOST_TARGETS: usize = MOST_VALIDATORS;

/// Voters of a snapshot.
pub const MOST_VOTERS: usize = 16_384;

/// Edges of plain weights in a bundle. This is a limit of the bytes of bundles and stays what it is
/// whatever nominators may name: a snapshot of many voters with many votes can have more.
pub const MOST_EDGES: usize = 262_144;

/// Seats of an election, of which there is at least one.
pub const MOST_SEATS: u32 = 512;

/// Thresholds between bags.
pub const MOST_THRESHOLDS: u32 = 200;

/// Endowments of a genesis.
pub const MOST_ENDOWMENTS: u32 = 65_536;

/// Bytes of a solution.
pub const MOST_SOLUTION_BYTES: u32 = 2_097_152;

/// Balancing rounds that PHRAGMMS is asked for.
pub const MOST_ROUNDS: u32 = 100;

/// Submissions that wait in one round.
pub const MOST_QUEUED: u32 = 16;

/// Eras that stand behind the current one.
pub const MOST_PAST_ERAS: u32 = 84;

/// The whole of which commissions and fractions are parts.
pub const WHOLE_FRACTION: u32 = 1_000_000_000;
