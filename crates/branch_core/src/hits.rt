//! The first stored box that the prefix of a region meets.
ghost use Rattle.std.specs.Prelude.{◌≡◌, ◌≤◌, length, take, MatchOption};
ghost use Rattle.branch_core.specs.Hits.{HasNoHitFrom, IsFirstHitFrom};

use nogood_store::Nogoods;

/// The first place of the prefix, from a place on, at which its codes so far meet a stored box, and the least tag of such
/// a box. The codes of the prefix are entered one by one, and left again.
pub(crate) fn hit_from(store: &mut Nogoods, front: &[u32], place: usize) -> Option<(usize, u64)>
    requires prefix { store.old.prefix ≡ take place front.now }
    requires place { place ≤ length front.now }
    requires few { length front.now ≤ 32 }
    ensures same { store.new ≡ store.old }
    ensures hit { MatchOption result (HasNoHitFrom store.old.nogoods front.now place)
        (λ h. (place ≤ h.0) × IsFirstHitFrom store.old.nogoods front.now place h.0 h.1) }
{
    if place == front.len() {
        return None;
    }
    let block = place as u8;
    if let Some(tag) = store.hit(block, front[place]) {
        return Some((place, tag));
    }
    store.enter(block, front[place]);
    let found = hit_from(store, front, place + 1);
    store.leave();
    found
}
