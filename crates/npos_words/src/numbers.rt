//! Numbers in words.
ghost use Rattle.std.specs.Prelude.{◌≡◌, ◌≤◌, IfSome};
ghost use Rattle.std.specs.Char.{is_ascii_digit};
ghost use Rattle.std.specs.List.{list_all};
ghost use Rattle.npos_words.specs.Numbers.{number_within};

/// The most digits of a number. The greatest u64 has as many.
const MOST_DIGITS: usize = 20;

/// Whether all bytes are decimal digits. Without this test a number could have a sign.
fn are_digits(text: &[u8]) -> bool
    ensures { result ≡ list_all is_ascii_digit text.now }
{
    text.iter().all(|byte| byte.is_ascii_digit())
}

/// The number that the text is, where it is one from the least to the most.
pub fn number_within(text: &str, least: u64, most: u64) -> Option<u64>
    ensures number { result ≡ number_within least most text.now }
    ensures least { IfSome result (λ number. least ≤ number) }
    ensures most { IfSome result (λ number. number ≤ most) }
{
    if text.len() > MOST_DIGITS || !are_digits(text.as_bytes()) {
        return None;
    }
    match text.parse::<u64>() {
        Ok(number) if least <= number && number <= most => Some(number),
        _ => None,
    }
}
