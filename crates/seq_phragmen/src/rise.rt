//! By how much picks raise loads.

/// How a pick raised the load of one of its nominators.
#[derive(Clone, Copy)]
pub(crate) struct Rise {
    pub(crate) voter: u32,
    pub(crate) target: u16,
    /// The load after the pick less the load before it.
    pub(crate) height: u64,
}
