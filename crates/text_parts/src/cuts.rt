//! Texts that are cut at a byte.
ghost use Rattle.std.specs.Prelude.{◌≡◌, ◌+◌, ◌<◌, length, option_map, IfSome};
ghost use Rattle.text_parts.specs.Parts.{cut as cut_at};

/// What stands before the first byte `sep`, and what stands after it; None exactly where there is no such byte.
pub fn cut(bytes: &[u8], sep: u8) -> Option<(&[u8], &[u8])>
    ensures parts { option_map (λ p. (p.0.now, p.1.now)) result ≡ cut_at sep bytes.now }
    ensures shorter { IfSome result (λ p. length p.1.now < length bytes.now) }
{
    for (at, byte) in bytes.iter().enumerate() {
        if *byte == sep {
            return Some((&bytes[..at], &bytes[at + 1..]));
        }
    }
    None
}
