//! Division where the quotient is mostly known.
ghost use Rattle.std.specs.Prelude.{◌≡◌, ◌<◌, ◌/◌};

/// How many times the divisor goes into the number, rounded down. Nothing rests on the guess: mostly
/// the quotient is the guess or one more, which a product tells, and a division of 128 bits takes
/// several times as long.
pub fn quotient(number: u128, divisor: u64, guess: u64) -> u128
    requires { 0 < divisor }
    ensures { result ≡ number / divisor }
{
    let (divisor, guess) = (u128::from(divisor), u128::from(guess));
    if let Some(rest) = number.checked_sub(guess * divisor) {
        if rest < divisor {
            return guess;
        }
        if rest - divisor < divisor {
            return guess + 1;
        }
    }
    number / divisor
}
