//! What the forms of a solution are, in numbers.
ghost use Rattle.compact_solution.specs.Limits.{AreTheLimits};

/// The numbers of groups and the mark that the code names are these.
pub fn the_limits_are_these()
    ensures { AreTheLimits }
{}
