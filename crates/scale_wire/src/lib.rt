// SCALE, the byte format of Substrate: what each type is spelled as, and its readers and writers.
#![tactic(auto)]

mod compact;
mod cursor;
pub mod fault;
pub mod laws;
mod layout;
mod pen;
mod up_to;
mod values;
mod wire;

pub use cursor::Cursor;
pub use layout::{Layout, ListOf, OptionOf, Own, RunOf, write_both_by, write_three_by};
pub use pen::Pen;
pub use up_to::{BytesUpTo, UpTo};
pub use wire::{
    Wire, read_bytes, read_list, read_whole, write_both, write_bytes, write_fields, write_list,
    write_tag,
};
