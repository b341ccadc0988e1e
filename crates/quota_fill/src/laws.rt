//! What holds of the fill. Each law is the contract of a function that does nothing.
ghost use Rattle.quota_fill.specs.Laws.{EveryFillPasses, SeatsArePicks};

/// There is no dead end: the fill of every well-formed snapshot passes the check. Either some pick
/// found less than the price of a seat, and every target outside has less from then on; or each
/// pick drew the price of its seat, and what is left in all is less than that.
pub fn every_fill_passes()
    ensures { EveryFillPasses }
{}

/// Each seat goes to the lowest of the targets outside whose nominators have the most left, so the
/// fill is what it is said to be.
pub fn seats_go_to_the_best_outside()
    ensures { SeatsArePicks }
{}
