//! Members as values.
use crate::Exposure;

/// A member of an era: what stood behind it when the era began, and what became of it since.
#[derive(Debug, Drop)]
pub struct MemberRecord {
    pub exposure: Exposure,
    /// At most 2^32 - 1, where they stay.
    pub points: u32,
    /// Whether its part of the era's reward is claimed.
    pub claimed: bool,
    /// The greatest fraction that was reported, in billionths; 0 at first.
    pub fraction: u32,
}
