//! The kinds of step, by what each tells the seat that takes it.
use crate::rule::View;
use atomic_table::{Join, Play, Split};
use refutation_log::Capsule;
use std::marker::{Brand, PhantomData};

/// A load of the best key.
pub struct Sees;

impl Play<Option<Capsule>, View> for Sees {
    ghost use Rattle.incumbent_word.specs.Plays.{Saw};

    ghost then = { λ s m found n. Saw m found n };
}

/// The plan that an offer is of.
pub trait Offering {
    ghost use Rattle.std.specs.Prelude.{List, ℕ};

    ghost plan: { List ℕ };
}

impl Offering for Brand {
    ghost use Rattle.std.specs.Prelude.{[]};

    ghost plan = { [] };
}

/// An offer of that plan: the best key becomes the lesser of itself and the plan's key.
pub struct Offers<J> {
    of: PhantomData<J>,
}

impl<J: Offering> Play<Option<Capsule>, View> for Offers<J> {
    ghost use Rattle.incumbent_word.specs.Plays.{Offered};

    ghost then = { λ s m found n. Offered J.plan m found n };
}

/// The taking of a turn, where it is free.
pub struct Takes;

impl Play<Option<Capsule>, View> for Takes {
    ghost use Rattle.incumbent_word.specs.Plays.{Took};

    ghost then = { λ s m found n. Took s.word m found n };
}

/// The giving back of a turn whose slot held a capsule.
pub struct Gives;

impl Play<Option<Capsule>, View> for Gives {
    ghost use Rattle.incumbent_word.specs.Plays.{Gave};

    ghost then = { λ s m found n. Gave m n };
}

/// The giving back of a turn whose slot was found empty.
pub struct GivesEmpty;

impl Play<Option<Capsule>, View> for GivesEmpty {
    ghost use Rattle.incumbent_word.specs.Plays.{GaveEmpty};

    ghost then = { λ s m found n. GaveEmpty s.word m n };
}

/// A new seat beside one.
pub struct Apart;

impl Split<View> for Apart {
    ghost use Rattle.incumbent_word.specs.Views.{apart_of};

    ghost left = { λ v. v };

    ghost right = { apart_of };
}

/// Two seats made one.
pub struct Both;

impl Join<View> for Both {
    ghost use Rattle.incumbent_word.specs.Views.{both_of, spent};

    ghost both = { both_of };

    ghost spent = { spent };
}
