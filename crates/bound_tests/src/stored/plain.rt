//! The plain list of boxes, which finds a hit by looking at each box.
use plan_rule::Literal;
use shape_exact::NoMemory;
use std::alloc::Global;

/// The literals of a box and its tag.
#[derive(Drop)]
struct Stored {
    literals: Vec<Literal>,
    tag: u64,
}

/// The boxes in their order, and the codes that are entered.
#[derive(Drop)]
pub(crate) struct Plain {
    boxes: Vec<Stored>,
    prefix: Vec<u32>,
}

impl Plain {
    pub(crate) fn new(alloc: Global) -> Plain {
        Plain {
            boxes: Vec::new(alloc),
            prefix: Vec::new(alloc),
        }
    }

    pub(crate) fn len(&self) -> usize {
        self.boxes.len()
    }

    pub(crate) fn depth(&self) -> usize {
        self.prefix.len()
    }

    pub(crate) fn last(&self) -> Option<u64> {
        self.boxes.last().map(|stored| stored.tag)
    }

    pub(crate) fn add(&mut self, literals: Vec<Literal>, tag: u64) -> Result<(), NoMemory> {
        self.boxes.push(Stored { literals, tag })?;
        Ok(())
    }

    pub(crate) fn enter(&mut self, code: u32) -> Result<(), NoMemory> {
        self.prefix.push(code)?;
        Ok(())
    }

    pub(crate) fn leave(&mut self) {
        let _ = self.prefix.pop();
    }

    /// The least tag of a box whose literals all hold the entered codes and this one of the next block.
    pub(crate) fn hit(&self, code: u32) -> Option<u64> {
        let mut least: Option<u64> = None;
        for stored in &self.boxes {
            if matches(stored.literals.as_slice(), self.prefix.as_slice(), code) {
                least = Some(least.map_or(stored.tag, |tag| tag.min(stored.tag)));
            }
        }
        least
    }
}

/// Whether each literal is on one of the first blocks and holds its code; the last block's is `code`.
fn matches(literals: &[Literal], prefix: &[u32], code: u32) -> bool {
    for l in literals {
        let block = usize::from(l.block);
        let held = match prefix.get(block) {
            Some(entered) => l.has(*entered),
            None => block == prefix.len() && l.has(code),
        };
        if !held {
            return false;
        }
    }
    true
}
