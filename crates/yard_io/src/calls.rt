//! The calls of a desk, each kind numbered from 0, and those that are to fail.
ghost use Rattle.std.specs.Prelude.{◌≡◌, ◌++◌, ◌∷◌, [], ◌↔◌, IsTrue, OnOk, OnErr};

use shape_exact::NoMemory;
use std::alloc::Global;

/// A method of a desk.
#[derive(Clone, Copy, Debug, PartialEq, Eq)]
pub enum DeskCall {
    Length,
    Read,
    Fresh,
    Append,
    Say,
}

/// One call: its kind, and how many of its kind were made before it.
#[derive(Clone, Copy, Debug, PartialEq, Eq)]
pub struct NumberedCall {
    pub call: DeskCall,
    pub number: u128,
}

/// How many calls of each kind were made. Each count stays at the greatest u128, which no listed call has as its number.
#[derive(Clone, Copy, Debug)]
pub struct Made {
    pub lengths: u128,
    pub reads: u128,
    pub fresh: u128,
    pub appends: u128,
    pub says: u128,
}

impl Made {
    ghost use Rattle.yard_io.specs.Calls.{none_made, number, with_call};

    fn none() -> Made
        ensures { result ≡ none_made }
    {
        Made {
            lengths: 0,
            reads: 0,
            fresh: 0,
            appends: 0,
            says: 0,
        }
    }

    fn number(&self, call: DeskCall) -> u128
        ensures { result ≡ number self.now call }
    {
        match call {
            DeskCall::Length => self.lengths,
            DeskCall::Read => self.reads,
            DeskCall::Fresh => self.fresh,
            DeskCall::Append => self.appends,
            DeskCall::Say => self.says,
        }
    }

    fn count(&mut self, call: DeskCall)
        ensures { self.new ≡ with_call self.old call }
    {
        match call {
            DeskCall::Length => self.lengths = self.lengths.saturating_add(1),
            DeskCall::Read => self.reads = self.reads.saturating_add(1),
            DeskCall::Fresh => self.fresh = self.fresh.saturating_add(1),
            DeskCall::Append => self.appends = self.appends.saturating_add(1),
            DeskCall::Say => self.says = self.says.saturating_add(1),
        }
    }
}

/// The calls that are to fail, and how many were made.
#[derive(Drop)]
pub struct Failures {
    listed: Vec<NumberedCall>,
    made: Made,
}

impl Failures {
    ghost use Rattle.yard_io.specs.Calls.{none_made, nth_call, with_call, IsNextListed};

    /// None is to fail, and none was made.
    pub fn new(alloc: Global) -> Failures
        ensures listed { result.listed.items ≡ [] }
        ensures made { result.made ≡ none_made }
    {
        Failures {
            listed: Vec::new(alloc),
            made: Made::none(),
        }
    }

    /// Lists one more call.
    pub fn list(&mut self, call: DeskCall, nth: u64) -> Result<(), NoMemory>
        ensures listed { OnOk result (self.new.listed.items ≡ self.old.listed.items ++ nth_call call nth ∷ []) }
        ensures err { OnErr result (self.new.listed.items ≡ self.old.listed.items) }
        ensures made { self.new.made ≡ self.old.made }
    {
        self.listed.push(NumberedCall {
            call,
            number: u128::from(nth),
        })?;
        Ok(())
    }

    /// Counts a call. Answers whether it is listed.
    pub fn count(&mut self, call: DeskCall) -> bool
        ensures listed { IsTrue result ↔ IsNextListed self.old.listed.items self.old.made call }
        ensures made { self.new.made ≡ with_call self.old.made call }
        ensures kept { self.new.listed.items ≡ self.old.listed.items }
    {
        let number = self.made.number(call);
        self.made.count(call);
        self.listed.contains(&NumberedCall { call, number })
    }
}
