//! Where a run meets the world: an input that comes in pieces, a text that goes out, and how a run
//! ends. What is made of the bytes is any machine's.
#![tactic(auto)]

mod edges;
mod halt;
mod input;
mod intake;
mod pieces;
mod status;
mod turn;

pub use edges::{deliver, flush, put, put_some};
pub use halt::{Halt, end_of};
pub use input::{read_all, read_up_to};
pub use intake::{Intake, is_cut, is_open_none};
pub use pieces::{PIECE, blank_piece, read_more, read_piece};
pub use status::{Status, status_of};
pub use turn::{Stop, Turn};
