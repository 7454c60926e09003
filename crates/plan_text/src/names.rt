//! Names as text.
ghost use Rattle.std.specs.Prelude.{◌≡◌};

use shape_exact::Name;

/// The name as text.
pub(crate) fn text_of(name: &Name) -> &str
    ensures { result.now ≡ name.now }
{
    match str::from_utf8(name.bytes()) {
        Ok(text) => text,
        Err(_) => "",
    }
}
