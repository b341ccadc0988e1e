//! What follows for states as bytes. Each law is the clause of a function that does nothing.
ghost use Rattle.scale_wire.specs.Form.{IsWire};
ghost use Rattle.scale_wire.specs.Laws.{IsReadBack, IsDecided};
ghost use Rattle.state_checkpoint.specs.Layout.{state_form};
ghost use Rattle.state_checkpoint.specs.Limits.{AreTheLimits};

/// A state keeps what every type that is spelled in SCALE keeps: it is read back from its bytes,
/// whatever follows, and no two states have the same bytes; all bytes begin with those of exactly
/// one state, or are refused at exactly one place and for exactly one reason. It has no longest
/// spelling.
pub fn a_state_has_one_spelling()
    ensures keeps { IsWire state_form }
    ensures back { IsReadBack state_form }
    ensures decided { IsDecided state_form }
{}

/// The limits that the code names are these numbers.
pub fn the_limits_are_these()
    ensures { AreTheLimits }
{}
