//! Numbers in words.
ghost use Rattle.std.specs.Prelude.{◌≡◌, ◌≤◌, IfSome, nat_lt, slice_index};
ghost use Rattle.std.specs.Char.{is_ascii_digit};
ghost use Rattle.std.specs.List.{list_all};
ghost use Rattle.sx_words.specs.Words.{is_number, number_of};

/// The number that is written, where it is written as `0` or in decimal digits that don't begin with 0, and isn't below
/// `least` or above `most`.
#[tactic(auto, unfolding(crate::specs::Words::number_of))]
pub fn number_of(text: &str, least: u64, most: u64) -> Option<u64>
    ensures value { result ≡ number_of least most text.now }
    ensures within { IfSome result (λ number. number ≤ most) }
    ensures above { IfSome result (λ number. least ≤ number) }
{
    if !is_number(text) {
        return None;
    }
    let Ok(number) = text.parse::<u64>() else {
        return None;
    };
    if least <= number && number <= most {
        Some(number)
    } else {
        None
    }
}

// Whether a text is `0`, or decimal digits that don't begin with 0.
#[tactic(auto, using(crate::proofs::Numbers::digits_all))]
fn is_number(text: &str) -> bool
    ensures { result ≡ is_number text.now }
{
    are_digits(text) && (text == "0" || begins_above_zero(text.as_bytes()))
}

// Whether the first byte is above the digit 0.
fn begins_above_zero(text: &[u8]) -> bool
    ensures { result ≡ nat_lt 48 (slice_index text.now 0) }
{
    match text {
        [first, ..] => *first > b'0',
        [] => false,
    }
}

// Whether each byte of a text is a decimal digit.
fn are_digits(text: &str) -> bool
    ensures { result ≡ list_all is_ascii_digit text.now }
{
    text.bytes().all(|byte| byte.is_ascii_digit())
}
