//! The desk over the real files and standard output.
ghost use Rattle.std.specs.Prelude.{◌≡◌, ◌≤◌, ◌<◌, length, IfOk, OnErr};
ghost use Rattle.yard_io.specs.Desk.{Rose, IsPiece};

use crate::faults::Faults;
use crate::{Desk, Trouble};
use std::fs::OpenOptions;
use std::io::{Read, Seek, SeekFrom, Write};
use std::rt::Files;
use std::{fs, io};

/// Adapts files and standard output. It tells nothing of their content. At each Err, want of memory that the system
/// tells included, it raises the count of its kind, which stays at the greatest u64; a read or a write of nothing counts
/// as a fault.
#[derive(Drop)]
pub struct RealDesk<'a, R> {
    rt: &'a R,
    faults: Faults,
}

impl<'a, R: Files + Print> RealDesk<'a, R> {
    ghost use Rattle.yard_io.specs.RealDesk.{reads_of, writes_of};

    /// The desk of this runtime, with both counts 0.
    pub fn new(rt: &'a R) -> RealDesk<'a, R>
        ensures { (reads_of result ≡ 0) × (writes_of result ≡ 0) }
    {
        RealDesk {
            rt,
            faults: Faults::none(),
        }
    }
}

fn read_at<R: Files>(rt: &R, name: &str, at: u64, buf: &mut [u8]) -> io::Result<usize>
    ensures { IfOk result (λ n. n ≤ length buf.new) }
{
    let mut file = fs::open(rt, name)?;
    file.seek(SeekFrom::Start(at))?;
    file.read(buf)
}

fn append_to<R: Files>(rt: &R, name: &str, bytes: &[u8]) -> io::Result<usize>
    ensures { IfOk result (λ n. n ≤ length bytes.now) }
{
    let mut file = OpenOptions::new().append(true).create(true).open(rt, name)?;
    file.write(bytes)
}

impl<'a, R: Files + Print> Desk for RealDesk<'a, R> {
    ghost use Rattle.std.specs.Prelude.{None, false};
    ghost use Rattle.yard_io.specs.RealDesk.{reads_of, writes_of};

    ghost file = { λ _ _. None };

    ghost tells = { λ _. false };

    ghost said = { λ _. None };

    ghost read_faults = { reads_of };

    ghost write_faults = { writes_of };

    fn length(&mut self, name: &str) -> Result<u64, Trouble>
        ensures raised { OnErr result (Rose (reads_of self.old) (reads_of self.new)) }
        ensures reads { reads_of self.old ≤ reads_of self.new }
        ensures writes { writes_of self.old ≤ writes_of self.new }
    {
        match fs::metadata(self.rt, name) {
            Ok(about) => Ok(about.len()),
            Err(_) => Err(self.faults.of_reading()),
        }
    }

    fn read(&mut self, name: &str, at: u64, buf: &mut [u8]) -> Result<usize, Trouble>
        requires { 0 < length buf.old }
        ensures count { IfOk result (IsPiece buf.new) }
        ensures raised { OnErr result (Rose (reads_of self.old) (reads_of self.new)) }
        ensures reads { reads_of self.old ≤ reads_of self.new }
        ensures writes { writes_of self.old ≤ writes_of self.new }
    {
        match read_at(self.rt, name, at, buf) {
            Ok(n) if n > 0 => Ok(n),
            _ => Err(self.faults.of_reading()),
        }
    }

    fn fresh(&mut self, name: &str) -> Result<(), Trouble>
        ensures raised { OnErr result (Rose (writes_of self.old) (writes_of self.new)) }
        ensures reads { reads_of self.old ≤ reads_of self.new }
        ensures writes { writes_of self.old ≤ writes_of self.new }
    {
        match fs::create(self.rt, name) {
            Ok(_) => Ok(()),
            Err(_) => Err(self.faults.of_writing()),
        }
    }

    fn append(&mut self, name: &str, bytes: &[u8]) -> Result<usize, Trouble>
        requires { 0 < length bytes.now }
        ensures count { IfOk result (IsPiece bytes.now) }
        ensures raised { OnErr result (Rose (writes_of self.old) (writes_of self.new)) }
        ensures reads { reads_of self.old ≤ reads_of self.new }
        ensures writes { writes_of self.old ≤ writes_of self.new }
    {
        match append_to(self.rt, name, bytes) {
            Ok(n) if n > 0 => Ok(n),
            _ => Err(self.faults.of_writing()),
        }
    }

    fn say(&mut self, bytes: &[u8]) -> Result<usize, Trouble>
        requires { 0 < length bytes.now }
        ensures count { IfOk result (IsPiece bytes.now) }
        ensures raised { OnErr result (Rose (writes_of self.old) (writes_of self.new)) }
        ensures reads { reads_of self.old ≤ reads_of self.new }
        ensures writes { writes_of self.old ≤ writes_of self.new }
    {
        match self.rt.write_some(bytes) {
            Ok(n) if n > 0 => Ok(n),
            _ => Err(self.faults.of_writing()),
        }
    }
}
