//! What follows where no cause stands, and the other way round.
ghost use Rattle.std.specs.Prelude.{◌≡◌, None};
ghost use Rattle.state_rules.specs.Causes.{first_cause, slash_cause};
ghost use Rattle.state_rules.specs.Sound.{IsSoundState, HasSoundSlashes};

use crate::State;

/// No cause but one of slashes stands exactly where all parts of the state but its slashes are
/// sound.
pub fn no_cause_stands_in_sound_states(state: &State)
    ensures sound { first_cause state.now ≡ None → IsSoundState state.now }
    ensures complete { IsSoundState state.now → first_cause state.now ≡ None }
{
    let _ = state;
}

/// No cause of slashes stands exactly where the slashes of the state are sound.
pub fn no_cause_stands_for_sound_slashes(state: &State)
    ensures sound { slash_cause state.now ≡ None → HasSoundSlashes state.now }
    ensures complete { HasSoundSlashes state.now → slash_cause state.now ≡ None }
{
    let _ = state;
}
