//! Bundles in JSON: the value that a bundle is written as, and the JSON that stands for one.
#![tactic(auto)]

mod bundle;
mod fault;
mod item;
pub mod laws;
mod limits;
mod parts;
mod tokens;
mod voter;
mod work;

pub use bundle::{bundle_from_json, bundle_to_json};
pub use fault::JsonFault;
