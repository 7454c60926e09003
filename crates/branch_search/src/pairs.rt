//! Where the boxes of a store stand, by pairs of their codes.

use code_table::Codes;
use nogood_store::Nogoods;
use plan_rule::{Literal, PlanBox};
use shape_exact::NoMemory;
use std::alloc::Global;

/// How many lists there are.
const LISTS: u64 = 65_536;

/// A place in the store, under a key; the other places of its list follow, from `next - 1` on.
#[derive(Clone, Copy, Drop)]
struct Link {
    key: u64,
    place: u32,
    next: u32,
}

/// The boxes of one store that were met so far. The exact literals of a box are paired off, and the box stands in a list of
/// each pair: whichever code a search enters last, one of the pairs has it. No promise rests on the lists.
#[derive(Drop)]
pub(crate) struct Pairs {
    heads: Vec<u32>,
    links: Vec<Link>,
    met: u32,
}

/// A number for the code of a block; 0 for none.
fn key_of(l: Literal) -> u64 {
    u64::from(l.block) * 0x100_0000 + u64::from(l.lo) + 1
}

/// A number for two codes.
fn key_of_two(one: u64, two: u64) -> u64 {
    one.max(two)
        .wrapping_mul(0x1_0000_0000)
        .wrapping_add(one.min(two))
}

/// The list of a key.
fn list_of(key: u64) -> usize {
    (key.wrapping_mul(0x9e37_79b9_7f4a_7c15) / 0x1_0000_0000_0000 % LISTS) as usize
}

impl Pairs {
    /// No box was met yet.
    pub(crate) fn new(alloc: Global) -> Result<Pairs, NoMemory> {
        let mut heads = Vec::new(alloc);
        for _ in 0..LISTS {
            heads.push(0)?;
        }
        Ok(Pairs {
            heads,
            links: Vec::new(alloc),
            met: 0,
        })
    }

    /// Puts a place into the list of a key.
    fn put(&mut self, key: u64, place: u32) -> Result<(), NoMemory> {
        let list = list_of(key);
        if list >= self.heads.len() || self.links.len() >= 0x7fff_ffff {
            return Ok(());
        }
        let next = self.heads[list];
        self.links.push(Link { key, place, next })?;
        self.heads[list] = self.links.len() as u32;
        Ok(())
    }

    /// Meets the box at a place.
    fn meet(&mut self, part: &PlanBox, place: u32) -> Result<(), NoMemory> {
        let mut first = 0;
        let mut open = 0;
        for l in part.literals() {
            if l.is_exact(l.block, l.lo) {
                let key = key_of(*l);
                if first == 0 {
                    first = key;
                }
                if open == 0 {
                    open = key;
                } else {
                    self.put(key_of_two(open, key), place)?;
                    open = 0;
                }
            }
        }
        if open == 0 {
            return Ok(());
        }
        if open == first {
            return self.put(open, place);
        }
        self.put(key_of_two(first, open), place)
    }

    /// Meets the boxes of the store that were added since.
    fn follow(&mut self, store: &Nogoods) -> Result<(), NoMemory> {
        for place in self.met..store.len() {
            if let Some(known) = store.at(place) {
                self.meet(&known.part, place)?;
            }
            self.met = place + 1;
        }
        Ok(())
    }

    /// The place of a box in the list of a key that contains the box.
    fn among(&self, codes: &Codes, store: &Nogoods, part: &PlanBox, key: u64) -> Option<u32> {
        let list = list_of(key);
        if list >= self.heads.len() {
            return None;
        }
        let mut at = self.heads[list] as usize;
        for _ in 0..self.links.len() {
            if at == 0 || at > self.links.len() {
                return None;
            }
            let link = self.links[at - 1];
            if link.key == key {
                if let Some(known) = store.at(link.place) {
                    if known.part.contains(codes, part) {
                        return Some(link.place);
                    }
                }
            }
            at = link.next as usize;
        }
        None
    }

    /// The place of a stored box that contains the box, and has the code of this block that the box has. Where memory for
    /// the lists is refused, fewer are found.
    pub(crate) fn find(
        &mut self,
        codes: &Codes,
        store: &Nogoods,
        part: &PlanBox,
        own: Literal,
    ) -> Option<u32> {
        let _followed = self.follow(store);
        let key = key_of(own);
        if let Some(place) = self.among(codes, store, part, key) {
            return Some(place);
        }
        for l in part.literals() {
            if l.block != own.block && l.is_exact(l.block, l.lo) {
                let both = key_of_two(key, key_of(*l));
                if let Some(place) = self.among(codes, store, part, both) {
                    return Some(place);
                }
            }
        }
        None
    }
}
