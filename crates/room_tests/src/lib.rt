//! What no clause says of the rooms of the state, of bytes and of words: that they do their work where
//! there is memory. Each module walks through the public calls of one room, on rows that were worked
//! apart from it. They stand in a crate of their own, since a crate's own tests prove it a second time.
#![tactic(auto)]

#[cfg(test)]
mod base;
#[cfg(test)]
mod blocks;
#[cfg(test)]
mod books;
#[cfg(test)]
mod eras;
#[cfg(test)]
mod lists;
#[cfg(test)]
mod places;
#[cfg(test)]
mod pools;
#[cfg(test)]
mod queues;
#[cfg(test)]
mod wire_parts;
#[cfg(test)]
mod wire_values;
#[cfg(test)]
mod words;
