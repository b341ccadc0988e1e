//! What is kept of the last eras, after Substrate's staking pallet: who was exposed, the points of
//! each validator, whether its part of the reward is claimed, and the greatest fraction that was
//! reported of it; and the slashes that wait. What follows for payouts and slashes over any history
//! stands in `laws`.
#![tactic(auto)]

mod accounts;
mod book;
mod deferred;
mod elected;
mod era;
mod exposure;
pub mod laws;
mod member;
mod names;
mod payout;
mod record;
mod refusal;
mod seat;
mod seats;
mod shares;

pub use book::EraBook;
pub use deferred::{DeferredSlash, MOST_SLASHES};
pub use exposure::{Backer, Exposure};
pub use payout::Payout;
pub use record::MemberRecord;
pub use refusal::EraRefusal;
