//! The keys that each table may have.
ghost use Rattle.std.specs.Prelude.{◌≡◌, option_map};
ghost use Rattle.std.specs.Str.{chars};
ghost use Rattle.toml.specs.View.{table_view};
ghost use Rattle.yard_file.specs.Keys.{block_keys, first_unknown, is_known, keys_in, known_keys, least_unknown, shown, shown_characters, top_keys};

use crate::{At, Key, Word, YardFault};
use toml::Table;

/// Whether the text is one of the keys.
fn is_known(keys: &[Key], text: &str) -> bool
    ensures { result ≡ is_known keys.now text.now }
{
    for key in keys {
        if key.word() == text {
            return true;
        }
    }
    false
}

/// The first key, as the table has them, that is none of these.
#[tactic(auto, using(crate::proofs::KeyLaws::keys_in_view))]
fn first_unknown<'a>(table: &'a Table, keys: &[Key]) -> Option<&'a str>
    ensures { option_map (λ k. k.now) result ≡ first_unknown (is_known keys.now) (keys_in (table_view table.now)) }
{
    for key in table.keys() {
        if !is_known(keys, key.as_str()) {
            return Some(key.as_str());
        }
    }
    None
}

/// The least key by its bytes that is none of these.
fn least_unknown<'a>(table: &'a Table, keys: &[Key]) -> Option<&'a str>
    ensures { option_map (λ k. k.now) result ≡ least_unknown (is_known keys.now) (keys_in (table_view table.now)) }
{
    let _count = table.len();
    first_unknown(table, keys)
}

/// How a character of an unknown key is shown.
fn shown(c: char) -> u8
    ensures { result ≡ shown c }
{
    if ' ' <= c && c <= '~' { c as u8 } else { b'?' }
}

/// The first 32 characters of a key, with a question mark for each that is not printable ASCII.
fn shown_word(key: &str) -> Word
    ensures { result.items ≡ shown_characters 32 (chars key.now) }
{
    let mut word = Word::new();
    for c in key.chars() {
        if word.is_full() {
            break;
        }
        word.push(shown(c));
    }
    word
}

/// The rule that the table has none but these keys.
#[tactic(auto, unfolding(crate::specs::Keys::known_keys))]
pub(crate) fn known_keys(table: &Table, at: At, keys: &[Key]) -> Result<(), YardFault>
    ensures { result ≡ known_keys at keys.now (table_view table.now) }
{
    match least_unknown(table, keys) {
        None => Ok(()),
        Some(key) => Err(YardFault::Unknown(at, shown_word(key))),
    }
}

/// The keys of the top table: pieces that stand come with version 2.
pub(crate) fn top_keys(version: u8) -> &'static [Key]
    ensures { result.now ≡ top_keys version }
{
    if version < 2 {
        &[Key::Version, Key::Days, Key::Plate, Key::Block]
    } else {
        &[Key::Version, Key::Days, Key::Plate, Key::Block, Key::Fixed]
    }
}

/// The keys of a block: a cost for being early comes with version 3.
pub(crate) fn block_keys(version: u8) -> &'static [Key]
    ensures { result.now ≡ block_keys version }
{
    if version < 3 {
        &[
            Key::Name,
            Key::Shape,
            Key::Turns,
            Key::Duration,
            Key::Release,
            Key::Due,
            Key::Weight,
        ]
    } else {
        &[
            Key::Name,
            Key::Shape,
            Key::Turns,
            Key::Duration,
            Key::Release,
            Key::Due,
            Key::Weight,
            Key::Early,
        ]
    }
}
