//! A desk in memory whose calls fail where they are listed.
ghost use Rattle.std.specs.Prelude.{◌≡◌, ◌<◌, ℕ, min, List, [], ◌∷◌, ◌++◌, ◌↔◌, ◌⊎◌, Some, None, true, IfOk, IfSome, OnOk, OnErr, IsErrOf, length, take, MatchOption};
ghost use Rattle.yard_io.specs.Quiet.{read_piece};
ghost use Rattle.yard_io.specs.Desk.{HasCause, Same, SameFiles, IsRead, Sets, IsPiece, longer};

use crate::calls::Failures;
use crate::faults::Faults;
use crate::{Desk, DeskCall, QuietDesk, Trouble};
use shape_exact::NoMemory;
use std::alloc::Global;

/// Files and said bytes in memory, all told. Each piece has at most `bite` bytes. A call answers `Failed` exactly where it
/// is listed by `fail`, or is a `length` or `read` of a missing file, or a `read` at or past the end. It then raises the
/// count of its kind, and nothing else does.
#[derive(Drop)]
pub struct MemoryDesk {
    held: QuietDesk,
    failures: Failures,
    faults: Faults,
}

impl MemoryDesk {
    ghost use Rattle.yard_io.specs.Calls.{none_made, nth_call};
    ghost use Rattle.yard_io.specs.MemoryDesk.{bite_of, file_of, said_of, reads_of, writes_of, made_of, failures_of, Rests};

    /// A desk without files that has said nothing, of which no call was made and none is to fail.
    pub fn new(alloc: Global, bite: usize) -> Result<MemoryDesk, NoMemory>
        requires { 0 < bite }
        ensures bite { IfOk result (λ desk. bite_of desk ≡ bite) }
        ensures files { IfOk result (λ desk. (name : List ℕ) → file_of desk name ≡ None) }
        ensures said { IfOk result (λ desk. said_of desk ≡ []) }
        ensures made { IfOk result (λ desk. made_of desk ≡ none_made) }
        ensures failures { IfOk result (λ desk. failures_of desk ≡ []) }
        ensures faults { IfOk result (λ desk. (reads_of desk ≡ 0) × (writes_of desk ≡ 0)) }
    {
        Ok(MemoryDesk {
            held: QuietDesk::new(alloc, bite)?,
            failures: Failures::new(alloc),
            faults: Faults::none(),
        })
    }

    /// Sets a file. Want of memory leaves the files as they were.
    pub fn put(&mut self, name: &str, bytes: &[u8]) -> Result<(), NoMemory>
        ensures set { OnOk result (Sets true (file_of self.old) (file_of self.new) name.now bytes.now) }
        ensures err { OnErr result (SameFiles (file_of self.old) (file_of self.new)) }
        ensures said { said_of self.new ≡ said_of self.old }
        ensures failures { failures_of self.new ≡ failures_of self.old }
        ensures rests { Rests self.old self.new }
    {
        self.held.put(name, bytes)
    }

    /// Lists the nth call of a kind to fail. Calls are numbered from 0, since the desk was made. Want of memory leaves the
    /// list as it was.
    pub fn fail(&mut self, call: DeskCall, nth: u64) -> Result<(), NoMemory>
        ensures listed { OnOk result (failures_of self.new ≡ failures_of self.old ++ nth_call call nth ∷ []) }
        ensures err { OnErr result (failures_of self.new ≡ failures_of self.old) }
        ensures files { SameFiles (file_of self.old) (file_of self.new) }
        ensures said { said_of self.new ≡ said_of self.old }
        ensures rests { Rests self.old self.new }
    {
        self.failures.list(call, nth)
    }

    /// The bytes of a file; None where there is no such file.
    pub fn file(&self, name: &str) -> Option<&[u8]>
        ensures { MatchOption result (file_of self.now name.now ≡ None) (λ bytes.
            file_of self.now name.now ≡ Some bytes.now) }
    {
        self.held.file(name)
    }

    /// What was said, all of it.
    pub fn said(&self) -> &[u8]
        ensures { result.now ≡ said_of self.now }
    {
        self.held.said()
    }
}

impl Desk for MemoryDesk {
    ghost use Rattle.std.specs.Prelude.{Some, true};
    ghost use Rattle.yard_io.specs.MemoryDesk.{bite_of, file_of, said_of, reads_of, writes_of, IsToFail, IsMissing, Counts, faults_after};

    ghost file = { file_of };

    ghost tells = { λ _. true };

    ghost said = { λ desk. Some (said_of desk) };

    ghost read_faults = { reads_of };

    ghost write_faults = { writes_of };

    fn length(&mut self, name: &str) -> Result<u64, Trouble>
        ensures count { IfOk result (λ n. IfSome (file_of self.old name.now) (λ bytes. n ≡ length bytes)) }
        ensures fails { IsErrOf result Trouble.Failed
            ↔ (IsToFail self.old DeskCall.Length ⊎ (file_of self.old name.now ≡ None)) }
        ensures files { SameFiles (file_of self.old) (file_of self.new) }
        ensures said { said_of self.new ≡ said_of self.old }
        ensures counted { Counts DeskCall.Length self.old self.new }
        ensures reads { reads_of self.new ≡ faults_after (reads_of self.old) result }
        ensures writes { writes_of self.new ≡ writes_of self.old }
        ensures cause { HasCause (reads_of self.old) (reads_of self.new) result }
    {
        let listed = self.failures.count(DeskCall::Length);
        if listed || self.held.file(name).is_none() {
            return Err(self.faults.of_reading());
        }
        self.held.length(name)
    }

    fn read(&mut self, name: &str, at: u64, buf: &mut [u8]) -> Result<usize, Trouble>
        requires { 0 < length buf.old }
        ensures count { IfOk result (IsPiece buf.new) }
        ensures bytes { IfOk result (IsRead (file_of self.old name.now) at buf.new) }
        ensures piece { IfOk result (λ n.
            IfSome (file_of self.old name.now) (λ bytes. n ≡ read_piece (bite_of self.old) buf.old at bytes)) }
        ensures fails { IsErrOf result Trouble.Failed
            ↔ (IsToFail self.old DeskCall.Read ⊎ IsMissing (file_of self.old name.now) at) }
        ensures files { SameFiles (file_of self.old) (file_of self.new) }
        ensures said { said_of self.new ≡ said_of self.old }
        ensures counted { Counts DeskCall.Read self.old self.new }
        ensures reads { reads_of self.new ≡ faults_after (reads_of self.old) result }
        ensures writes { writes_of self.new ≡ writes_of self.old }
        ensures cause { HasCause (reads_of self.old) (reads_of self.new) result }
    {
        let listed = self.failures.count(DeskCall::Read);
        let is_there = match self.held.file(name) {
            Some(bytes) => at < bytes.len() as u64,
            None => false,
        };
        if listed || !is_there {
            return Err(self.faults.of_reading());
        }
        self.held.read(name, at, buf)
    }

    fn fresh(&mut self, name: &str) -> Result<(), Trouble>
        ensures made { OnOk result (Sets true (file_of self.old) (file_of self.new) name.now []) }
        ensures fails { IsErrOf result Trouble.Failed ↔ IsToFail self.old DeskCall.Fresh }
        ensures err { OnErr result (SameFiles (file_of self.old) (file_of self.new)) }
        ensures said { said_of self.new ≡ said_of self.old }
        ensures counted { Counts DeskCall.Fresh self.old self.new }
        ensures writes { writes_of self.new ≡ faults_after (writes_of self.old) result }
        ensures reads { reads_of self.new ≡ reads_of self.old }
        ensures cause { HasCause (writes_of self.old) (writes_of self.new) result }
    {
        if self.failures.count(DeskCall::Fresh) {
            return Err(self.faults.of_writing());
        }
        self.held.fresh(name)
    }

    fn append(&mut self, name: &str, bytes: &[u8]) -> Result<usize, Trouble>
        requires { 0 < length bytes.now }
        ensures count { IfOk result (IsPiece bytes.now) }
        ensures piece { IfOk result (λ n. n ≡ min (bite_of self.old) (length bytes.now)) }
        ensures made { IfOk result (λ n. Sets true (file_of self.old) (file_of self.new) name.now
            (longer (file_of self.old name.now) (take n bytes.now))) }
        ensures fails { IsErrOf result Trouble.Failed ↔ IsToFail self.old DeskCall.Append }
        ensures err { OnErr result (SameFiles (file_of self.old) (file_of self.new)) }
        ensures said { said_of self.new ≡ said_of self.old }
        ensures counted { Counts DeskCall.Append self.old self.new }
        ensures writes { writes_of self.new ≡ faults_after (writes_of self.old) result }
        ensures reads { reads_of self.new ≡ reads_of self.old }
        ensures cause { HasCause (writes_of self.old) (writes_of self.new) result }
    {
        if self.failures.count(DeskCall::Append) {
            return Err(self.faults.of_writing());
        }
        self.held.append(name, bytes)
    }

    fn say(&mut self, bytes: &[u8]) -> Result<usize, Trouble>
        requires { 0 < length bytes.now }
        ensures count { IfOk result (IsPiece bytes.now) }
        ensures piece { IfOk result (λ n. n ≡ min (bite_of self.old) (length bytes.now)) }
        ensures said { IfOk result (λ n. said_of self.new ≡ said_of self.old ++ take n bytes.now) }
        ensures fails { IsErrOf result Trouble.Failed ↔ IsToFail self.old DeskCall.Say }
        ensures err { OnErr result (said_of self.new ≡ said_of self.old) }
        ensures files { SameFiles (file_of self.old) (file_of self.new) }
        ensures counted { Counts DeskCall.Say self.old self.new }
        ensures writes { writes_of self.new ≡ faults_after (writes_of self.old) result }
        ensures reads { reads_of self.new ≡ reads_of self.old }
        ensures cause { HasCause (writes_of self.old) (writes_of self.new) result }
    {
        if self.failures.count(DeskCall::Say) {
            return Err(self.faults.of_writing());
        }
        self.held.say(bytes)
    }
}
