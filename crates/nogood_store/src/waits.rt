//! For which block a box waits.
ghost use Rattle.std.specs.Prelude.{◌≡◌, ◌<◌, ◌≤◌, ◌⊎◌, [], ◌∷◌, ◌++◌, length};
ghost use Rattle.nogood_store.specs.Waits.{stops, waits, Rising};

use plan_rule::Literal;

/// Whether a literal is not matched, where all on earlier blocks are and this block has this code.
fn stops(l: Literal, block: u8, code: u32) -> bool
    ensures { result ≡ stops block code l }
{
    l.block > block || (l.block == block && (code < l.lo || l.hi <= code))
}

/// The block of the first literal that is not matched once this code of the next block is entered too; 32 where all are
/// matched. All literals on earlier blocks are matched.
pub(crate) fn waits_on(literals: &[Literal], codes: &[u32], code: u32) -> u8
    requires rising { Rising 0 literals.now }
    requires few { length codes.now < 32 }
    requires matched { (waits codes.now literals.now ≡ length codes.now) ⊎ (waits codes.now literals.now ≡ 32) }
    ensures waits { result ≡ waits (codes.now ++ code ∷ []) literals.now }
    ensures below { result ≤ 32 }
{
    let block = codes.len() as u8;
    for l in literals {
        if stops(*l, block, code) {
            return l.block;
        }
    }
    32
}

/// The block of the first literal; 32 where there is none.
pub(crate) fn first_block(literals: &[Literal]) -> u32
    ensures { result ≡ waits [] literals.now }
{
    match literals.first() {
        Some(l) => u32::from(l.block),
        None => 32,
    }
}
