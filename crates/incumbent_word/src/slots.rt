//! The slots in which capsules wait, and the turns in which seats come to them.
ghost use Rattle.std.specs.Prelude.{◌≡◌, ◌<◌, ◌-◌, ◌^◌, ◌⊎◌, Contains, IfSome, IfOk, IfErr, MatchOption};
ghost use Rattle.incumbent_word.specs.Calls.{IsFetched, IsPosted};
ghost use Rattle.incumbent_word.specs.Sharing.{IsPostable, IsShareable};
ghost use Rattle.incumbent_word.specs.Sittings.{with_empty, with_taken};

use crate::plays::{Gives, GivesEmpty, Takes};
use crate::{Board, Seat};
use refutation_log::Capsule;

/// What came of a post.
#[derive(Drop)]
pub enum Posted {
    /// The turn was found taken; the capsule is handed back.
    Busy(Capsule),
    /// The capsule is in the slot, which was empty.
    Done,
    /// The capsule is in the slot in place of this one.
    Replaced(Capsule),
}

/// What came of a fetch.
#[derive(Drop)]
pub enum Fetched {
    /// The turn was found taken.
    Busy,
    /// The slot was empty.
    Nothing,
    /// The capsule was in the slot, which is empty now.
    Got(Capsule),
}

impl Board {
    /// Puts a content into a slot in its turn, and answers what stood there. Where the turn is found taken, the content
    /// comes back at once.
    fn exchange(
        &self,
        seat: &mut Seat,
        slot: u8,
        content: Option<Capsule>,
    ) -> Result<Option<Capsule>, Option<Capsule>>
        requires slot { slot < 16 }
        requires board { seat.old.place ≡ self.now }
        requires content { IfSome content (IsPostable self.now.yard seat.old.seen) }
        ensures found { IfOk result (λ found. MatchOption found (seat.new ≡ with_empty seat.old slot)
            (λ capsule. (seat.new ≡ seat.old) × IsShareable self.now.yard capsule)) }
        ensures taken { IfErr result (λ back. (seat.new ≡ with_taken seat.old slot) × (back ≡ content)) }
    {
        let word = slot as usize + 1;
        let shared = &self.table.shared;
        if shared.compare_exchange::<Takes>(&mut seat.seat, word, 0, 1) != 0 {
            return Err(content);
        }
        let found = shared.exchange(&mut seat.seat, slot as usize, content);
        match found {
            Some(capsule) => {
                shared.swap::<Gives>(&mut seat.seat, word, 0);
                Ok(Some(capsule))
            }
            None => {
                shared.swap::<GivesEmpty>(&mut seat.seat, word, 0);
                Ok(None)
            }
        }
    }

    /// Puts a capsule into a slot: `Busy` exactly where the turn was found taken, `Done` exactly where the slot was empty,
    /// and else `Replaced` with the capsule that stood there. The posted capsule is to be good up to its bar, whoever
    /// takes it, and its bar is to be a key that the seat has seen, or the greatest u64. It waits for nobody.
    pub fn post(&self, seat: &mut Seat, slot: u8, capsule: Capsule) -> Posted
        requires slot { slot < 16 }
        requires board { seat.old.place ≡ self.now }
        requires shareable { IsShareable self.now.yard capsule }
        requires bar { Contains seat.old.seen capsule.bar ⊎ (capsule.bar ≡ 2 ^ 64 - 1) }
        ensures { IsPosted slot capsule seat.old result seat.new }
    {
        match self.exchange(seat, slot, Some(capsule)) {
            Ok(None) => Posted::Done,
            Ok(Some(old)) => Posted::Replaced(old),
            Err(Some(capsule)) => Posted::Busy(capsule),
            Err(None) => unreachable!(),
        }
    }

    /// Takes the capsule out of a slot: `Busy` exactly where the turn was found taken, `Nothing` exactly where the slot
    /// was empty. It waits for nobody. How the capsule's bar stands to the best key is learnt by a `see`.
    pub fn fetch(&self, seat: &mut Seat, slot: u8) -> Fetched
        requires slot { slot < 16 }
        requires board { seat.old.place ≡ self.now }
        ensures { IsFetched slot seat.old result seat.new }
    {
        match self.exchange(seat, slot, None) {
            Ok(None) => Fetched::Nothing,
            Ok(Some(capsule)) => Fetched::Got(capsule),
            Err(_) => Fetched::Busy,
        }
    }
}
