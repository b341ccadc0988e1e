//! The state of a chain, as it is written down between two blocks.
use block_wire::{BundleVoter, Params};
use era_book::{Backer, DeferredSlash};
use npos_base::{AccountId, Edge, List, Score};
use stake_ledger::BookRow;

/// All that a chain keeps between two blocks, and nothing that follows from the rest: who goes on
/// from it writes what the chain itself would have written.
#[derive(Debug, Drop)]
pub struct State {
    /// The params of a full genesis and the eras that a slash waits; a plain genesis has none.
    pub params: Option<(Params, u32)>,
    /// The number of the next block.
    pub due: u64,
    /// The units that the genesis gave.
    pub genesis: u64,
    /// The units that were minted since.
    pub minted: u64,
    /// The units that were burned since.
    pub burned: u64,
    /// What each account has, by rising account.
    pub rows: List<BookRow>,
    /// The accounts with a role, in the order in which they are polled: the highest bag first.
    pub roles: List<RoleRow>,
    /// The eras that are kept and have members, by rising era.
    pub eras: List<EraRow>,
    /// The snapshot of the round that is open.
    pub round: Option<RoundRow>,
    /// The number that the next accepted submission takes.
    pub next_submission: u64,
    /// The submissions that wait, by rank.
    pub queue: List<QueueRow>,
    /// The committee that waits for its era.
    pub waiting: Option<WaitingRow>,
    /// The number that the next queued slash takes.
    pub next_slash: u64,
    /// The slashes that wait, by rising number.
    pub slashes: List<DeferredSlash>,
}

/// An account with a role, and the bag that it stands in.
#[derive(Debug, Drop)]
pub struct RoleRow {
    pub who: AccountId,
    pub bag: u32,
    pub role: RoleKind,
}

/// What an account does in elections. A commission is in billionths.
#[derive(Debug, Drop)]
pub enum RoleKind {
    Nominator { targets: List<AccountId> },
    Validator { commission: u32 },
}

/// An era with its members, by rising account.
#[derive(Debug, Drop)]
pub struct EraRow {
    pub era: u32,
    pub members: List<MemberRow>,
}

/// A member of an era: who backs it, and what became of it since. Its support is the sum of what
/// its backers give.
#[derive(Debug, Drop)]
pub struct MemberRow {
    pub who: AccountId,
    /// In billionths.
    pub commission: u32,
    pub backers: List<Backer>,
    pub points: u32,
    /// Whether its part of the era's reward is claimed.
    pub claimed: bool,
    /// The greatest fraction that was reported of it, in billionths.
    pub fraction: u32,
}

/// A snapshot: the targets, by rising account, with their commissions in billionths, and the voters.
#[derive(Debug, Drop)]
pub struct RoundRow {
    pub targets: List<(AccountId, u32)>,
    pub voters: List<BundleVoter>,
}

/// A submission that waits. Its deposit is the one that the params ask for.
#[derive(Debug, Drop)]
pub struct QueueRow {
    pub number: u64,
    pub who: AccountId,
    pub score: Score,
    pub bytes: List<u8>,
}

/// A committee that waits for its era: the snapshot that elected it, its members as positions of
/// targets, and its edges, by rising voter and then target, each with an amount above 0.
#[derive(Debug, Drop)]
pub struct WaitingRow {
    pub round: RoundRow,
    pub committee: List<u16>,
    pub edges: List<Edge>,
}
