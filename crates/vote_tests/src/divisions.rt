//! Division where the quotient is mostly known.
use seat_race::quotient;
use std::test::Fail;

/// A number, a divisor, a guess, and the quotient: guesses that are right, one too low, two too low,
/// too high, and far beyond.
static DIVISIONS: [(u128, u64, u64, u128); 8] = [
    (17, 5, 3, 3),
    (17, 5, 2, 3),
    (17, 5, 1, 3),
    (17, 5, 4, 3),
    (15, 5, u64::MAX, 3),
    (14, 5, 2, 2),
    (0, 7, 0, 0),
    (u128::MAX, u64::MAX, u64::MAX, (1 << 64) + 1),
];

#[test]
fn quotients_do_not_rest_on_their_guesses(rt: HostRuntime) -> Result<(), Fail> {
    for (number, divisor, guess, wanted) in &DIVISIONS {
        assert_eq!(rt; quotient(*number, *divisor, *guess), *wanted);
    }
    Ok(())
}
