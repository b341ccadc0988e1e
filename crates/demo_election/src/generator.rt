//! The generator of the draws.
ghost use Rattle.std.specs.Prelude.{◌≡◌, ◌<◌, ◌^◌};
ghost use Rattle.demo_election.specs.Generated.{next_state, drawn};

/// The factor of the generator, after Knuth's MMIX.
const FACTOR: u64 = 6_364_136_223_846_793_005;
/// What the generator adds in each step.
const STEP: u64 = 1_442_695_040_888_963_407;

/// Goes on to the next state, and tells its upper 31 bits.
pub fn draw(state: &mut u64) -> u64
    ensures state { state.new ≡ next_state state.old }
    ensures drawn { result ≡ drawn state.new }
    ensures few { result < 2 ^ 31 }
{
    *state = state.wrapping_mul(FACTOR).wrapping_add(STEP);
    *state >> 33
}
