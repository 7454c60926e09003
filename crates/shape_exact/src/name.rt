//! Names of plates and blocks.
ghost use Rattle.std.specs.Prelude.{◌∷◌, [], ◌≡◌, true, SomeIff};
ghost use Rattle.shape_exact.specs.Names.{is_name, is_name_byte, all_name_bytes};

use arrayvec::ArrayVec;
use std::marker::Model;

/// The name of a plate or a block: 1 to 32 bytes, each of `A-Z a-z 0-9 _ -`.
#[derive(Clone, Drop)]
pub struct Name {
    bytes: ArrayVec<u8, 32>,
}

impl Model for Name {
    ghost use Rattle.std.specs.Prelude.{◌≡◌, List, ℕ, true};
    ghost use Rattle.shape_exact.specs.Names.{is_name};

    ghost Value = { List ℕ };

    ghost view = { λ n. n.bytes.items };

    ghost invariant = { λ n. is_name n.bytes.items ≡ true };
}

fn is_name_byte(b: u8) -> bool
    ensures { result ≡ is_name_byte b }
{
    b'A' <= b && b <= b'Z'
        || b'a' <= b && b <= b'z'
        || b'0' <= b && b <= b'9'
        || b == b'_'
        || b == b'-'
}

fn all_name_bytes(bytes: &[u8]) -> bool
    ensures { result ≡ all_name_bytes bytes.now }
{
    for b in bytes {
        if !is_name_byte(*b) {
            return false;
        }
    }
    true
}

impl Name {
    /// The name that the bytes spell; None where they are not 1 to 32 bytes of `A-Z a-z 0-9 _ -`.
    pub fn read(bytes: &[u8]) -> Option<Name>
        ensures { SomeIff result (is_name bytes.now ≡ true) bytes.now }
    {
        if bytes.is_empty() || !all_name_bytes(bytes) {
            return None;
        }
        match ArrayVec::try_from(bytes) {
            Ok(bytes) => Some(Name { bytes }),
            Err(_) => None,
        }
    }

    /// The bytes of the name, which are ASCII.
    pub fn bytes(&self) -> &[u8]
        ensures value { result.now ≡ self.now }
        ensures name { is_name result.now ≡ true }
    {
        self.bytes.as_slice()
    }
}

impl Default for Name {
    ghost is_default = { λ n. n ≡ 45 ∷ [] };

    fn default() -> Name {
        let mut bytes = ArrayVec::new();
        bytes.push(b'-');
        Name { bytes }
    }
}
