//! Decimal numbers without leading zeros.
ghost use Rattle.std.specs.Prelude.{◌≡◌, ◌≤◌, ◌<◌, ◌^◌, ℕ, IfSome, decimal};
ghost use Rattle.text_parts.specs.Parts.{is_plain as is_plain_text, number_of as number_of_text};

/// Whether the text is not empty, and has no 0 before another digit.
fn is_plain(text: &[u8]) -> bool
    ensures { result ≡ is_plain_text text.now }
{
    match text {
        [] => false,
        [_] => true,
        [first, ..] => *first != b'0',
    }
}

/// The number that the digits of a text give, where they begin with no needless 0 and stay within `limit`.
#[tactic(auto, unfolding(crate::specs::Parts::number_of))]
fn plain_number(limit: u64, text: &[u8]) -> Option<u64>
    requires { limit < 10 ^ 18 }
    ensures value { result ≡ number_of_text limit text.now }
    ensures within { IfSome result (λ n. n ≤ limit) }
{
    if !is_plain(text) {
        return None;
    }
    let mut value: u64 = 0;
    for digit in text {
        if !digit.is_ascii_digit() {
            return None;
        }
        value = value * 10 + u64::from(*digit - b'0');
        if value > limit {
            return None;
        }
    }
    Some(value)
}

/// The number that the text is in decimal digits, without leading zeros and of at most `limit`; None exactly where it
/// is none.
pub fn number_of(limit: u64, text: &[u8]) -> Option<u64>
    requires { limit < 10 ^ 18 }
    ensures value { result ≡ number_of_text limit text.now }
    ensures within { IfSome result (λ n. n ≤ limit) }
    ensures spelled { IfSome result (λ n. text.now ≡ decimal n) }
    ensures read { (n : ℕ) → n ≤ limit → text.now ≡ decimal n → result ≡ Some n }
{
    plain_number(limit, text)
}
