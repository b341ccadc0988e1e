//! Lines of text: what their pieces are, and how they are told.
#![tactic(auto)]

mod accounts;
mod pieces;
mod whole;

pub use pieces::{Piece, tell};
pub use whole::{tell_amount, tell_ok, tell_oks};
