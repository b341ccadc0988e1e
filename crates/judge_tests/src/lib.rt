//! What no clause says of the judgement on a committee: that it is made where there is memory. One
//! table was worked by hand, and one was made by going through all groups of voters. They stand in a
//! crate of their own, since a crate's own tests prove it a second time.
#![tactic(auto)]

#[cfg(test)]
mod drawn;
#[cfg(test)]
mod worked;
#[cfg(test)]
mod writing;
