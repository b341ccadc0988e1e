//! The books of stake: what each account has free, bonded, on its way out and held as deposits,
//! after Substrate's staking pallet. Every unit is accounted for: what the accounts hold and what
//! was burned is always what was issued.
#![tactic(auto)]

mod book;
mod book_row;
mod call;
mod chunks;
pub mod laws;
mod parts;
mod refusal;
mod row;
mod rows;
mod rows_fault;
mod totals;

pub use book::{Book, Loss};
pub use book_row::{BookRow, first_bad_row, is_bad_row, is_bad_sum};
pub use chunks::{Chunk, MOST_CHUNKS};
pub use refusal::LedgerRefusal;
pub use rows_fault::RowsFault;
pub use totals::Totals;
