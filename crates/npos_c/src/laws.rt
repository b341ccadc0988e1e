//! What programs in other languages count on, in numbers.
ghost use Rattle.npos_c.specs.Limits.{AreTheLimits};

/// The numbers that the code names are these.
pub fn the_numbers_are_these()
    ensures { AreTheLimits }
{}
