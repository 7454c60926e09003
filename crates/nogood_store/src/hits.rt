//! The least tag among the boxes of a chain.
ghost use Rattle.std.specs.Prelude.{◌≡◌, ℕ, ◌<◌, ◌⊎◌, List, [], ◌∷◌, ◌++◌, length};
ghost use Rattle.nogood_store.specs.Hits.{least_of};
ghost use Rattle.nogood_store.specs.Waits.{box_of, Rising};
ghost use Rattle.nogood_store.specs.Places.{AreFor};
ghost use Rattle.nogood_store.specs.Among.{IsHitAmong};
ghost use Rattle.watch_chains.specs.Lists.{entries_of};

use crate::Nogood;
use crate::waits::waits_on;
use watch_chains::Chains;

/// The lesser of two tags, of which the first may be none.
fn lesser(least: Option<u64>, tag: u64) -> u64
    ensures { result ≡ least_of least tag }
{
    match least {
        Some(other) => other.min(tag),
        None => tag,
    }
}

/// The least tag so far, with the boxes of one chain that are matched once this code of the next block is entered.
pub(crate) fn least_on(
    chains: &Chains,
    list: &[Nogood],
    chain: u32,
    codes: &[u32],
    code: u32,
    least: Option<u64>,
) -> Option<u64>
    requires few { length codes.now < 32 }
    requires stand { AreFor list.now codes.now chains.now.lists }
    requires entries { chains.now.entries ≡ length list.now }
    requires rising { (e : ℕ) → e < length list.now → Rising 0 (box_of list.now e) }
    requires chain_is { (chain ≡ length codes.now) ⊎ (chain ≡ 32) }
    ensures { (seen : List ℕ) → IsHitAmong list.now (codes.now ++ code ∷ []) seen least
        → IsHitAmong list.now (codes.now ++ code ∷ []) (seen ++ entries_of chains.now.lists chain) result }
{
    let mut least = least;
    let mut cursor = chains.first(chain);
    while let Some(entry) = cursor {
        let nogood = &list[entry as usize];
        if waits_on(nogood.part.literals(), codes, code) == 32 {
            least = Some(lesser(least, nogood.tag));
        }
        cursor = chains.next(entry);
    }
    least
}
