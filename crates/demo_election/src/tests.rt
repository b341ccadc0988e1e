//! Generated elections.
use crate::generated;
use crate::generator::draw;
use npos_base::AccountId;
use std::test::Fail;

/// The first three states of seed 0.
const STATES: [u64; 3] = [
    1_442_695_040_888_963_407,
    1_876_011_003_808_476_466,
    11_166_244_414_315_200_793,
];

/// Each draw tells the upper 31 bits of the next state.
#[test]
fn the_first_draws_of_seed_0(rt: HostRuntime) -> Result<(), Fail> {
    let mut state = 0;
    for wanted in STATES {
        let drawn = draw(&mut state);
        assert_eq!(rt; state, wanted);
        assert_eq!(rt; drawn, wanted / 8_589_934_592);
    }
    Ok(())
}

/// One seat: four targets, and a voter with 1,951,807 units for target 1 alone.
#[test]
fn one_voter_of_seed_0(rt: HostRuntime) -> Result<(), Fail> {
    let snapshot = generated(rt.alloc(), 0, 1, 1)?;
    assert_eq!(rt; snapshot.target_count(), 4);
    assert_eq!(rt; snapshot.target(3), AccountId { hi: 0, lo: 4 });
    assert_eq!(rt; snapshot.voter(0), AccountId { hi: 1, lo: 1 });
    assert_eq!(rt; snapshot.stakes(), [1_951_807].as_slice());
    assert_eq!(rt; snapshot.votes(0), [1].as_slice());
    Ok(())
}
