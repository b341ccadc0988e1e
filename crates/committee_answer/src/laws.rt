//! What the numbers of the search are.
ghost use Rattle.committee_answer.specs.Limits.{AreTheLimits};

/// The number that the code names is this one.
pub fn the_limits_are_these()
    ensures { AreTheLimits }
{}
