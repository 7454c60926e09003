//! A desk in memory that never fails.
ghost use Rattle.std.specs.Prelude.{◌≡◌, ◌<◌, ◌≤◌, ℕ, min, List, [], ◌++◌, Some, None, true, IfOk, IfSome, OnOk, OnErr, IsErrOf, length, take, unwrap_or, MatchOption, if◌then◌else◌};
ghost use Rattle.std.specs.Str.{bytes_eq};
ghost use Rattle.yard_io.specs.Quiet.{text_at, read_piece};
ghost use Rattle.yard_io.specs.Desk.{Files, HasCause, Same, SameFiles, IsRead, Sets, IsPiece, then_said, longer};

use crate::{Desk, Trouble};
use shape_exact::NoMemory;
use std::alloc::Global;
use std::collections::BTreeMap;

/// Files and said bytes in memory, all told. Each piece has at most `bite` bytes, but that a read of a missing file, or
/// at or past the end, fills the whole buffer with 0. A missing file is not told; its length is 0. Its counts of faults are the constant 0, so no call answers `Failed`.
#[derive(Drop)]
pub struct QuietDesk {
    alloc: Global,
    bite: usize,
    files: BTreeMap<String, Vec<u8>>,
    said: Vec<u8>,
    ghost some: { 0 < bite },
}

impl QuietDesk {
    ghost use Rattle.yard_io.specs.QuietDesk.{bite_of, file_of, said_of};

    /// A desk without files that has said nothing.
    pub fn new(alloc: Global, bite: usize) -> Result<QuietDesk, NoMemory>
        requires { 0 < bite }
        ensures bite { IfOk result (λ desk. bite_of desk ≡ bite) }
        ensures files { IfOk result (λ desk. (name : List ℕ) → file_of desk name ≡ None) }
        ensures said { IfOk result (λ desk. said_of desk ≡ []) }
    {
        Ok(QuietDesk {
            alloc,
            bite,
            files: BTreeMap::new(alloc),
            said: Vec::new(alloc),
        })
    }

    /// Sets a file. Want of memory leaves the desk as it was.
    pub fn put(&mut self, name: &str, bytes: &[u8]) -> Result<(), NoMemory>
        ensures made { OnOk result (Sets true (file_of self.old) (file_of self.new) name.now bytes.now) }
        ensures err { OnErr result (SameFiles (file_of self.old) (file_of self.new)) }
        ensures bite { bite_of self.new ≡ bite_of self.old }
        ensures said { said_of self.new ≡ said_of self.old }
    {
        let text = Vec::from_slice(self.alloc, bytes)?;
        self.put_bytes(name, text)
    }

    /// The bytes of a file; None where there is no such file.
    pub fn file(&self, name: &str) -> Option<&[u8]>
        ensures { MatchOption result (file_of self.now name.now ≡ None) (λ bytes.
            file_of self.now name.now ≡ Some bytes.now) }
    {
        match self.files.get(name) {
            Some(bytes) => Some(bytes.as_slice()),
            None => None,
        }
    }

    /// What was said, all of it.
    pub fn said(&self) -> &[u8]
        ensures { result.now ≡ said_of self.now }
    {
        self.said.as_slice()
    }

    fn copy_of(&self, name: &str) -> Result<Vec<u8>, NoMemory>
        ensures { IfOk result (λ v. v.items ≡ unwrap_or (file_of self.now name.now) []) }
    {
        match self.files.get(name) {
            None => Ok(Vec::new(self.alloc)),
            Some(bytes) => Ok(Vec::from_slice(self.alloc, bytes)?),
        }
    }

    fn put_bytes(&mut self, name: &str, bytes: Vec<u8>) -> Result<(), NoMemory>
        ensures made { OnOk result (Sets true (file_of self.old) (file_of self.new) name.now bytes.items) }
        ensures err { OnErr result (SameFiles (file_of self.old) (file_of self.new)) }
        ensures bite { bite_of self.new ≡ bite_of self.old }
        ensures said { said_of self.new ≡ said_of self.old }
    {
        let Ok(key) = String::from_str(self.alloc, name) else {
            return Err(NoMemory);
        };
        match self.files.insert(key, bytes) {
            Ok(_) => Ok(()),
            Err(_) => Err(NoMemory),
        }
    }
}

impl Desk for QuietDesk {
    ghost use Rattle.std.specs.Prelude.{Some, true};
    ghost use Rattle.yard_io.specs.QuietDesk.{bite_of, file_of, said_of, ReadsPiece};

    ghost file = { file_of };

    ghost tells = { λ _. true };

    ghost said = { λ desk. Some (said_of desk) };

    ghost read_faults = { λ _. 0 };

    ghost write_faults = { λ _. 0 };

    fn length(&mut self, name: &str) -> Result<u64, Trouble>
        ensures count { IfOk result (λ n. n ≡ length (unwrap_or (file_of self.old name.now) [])) }
        ensures files { SameFiles (file_of self.old) (file_of self.new) }
        ensures said { said_of self.new ≡ said_of self.old }
        ensures bite { bite_of self.new ≡ bite_of self.old }
        ensures cause { HasCause 0 0 result }
    {
        match self.files.get(name) {
            Some(bytes) => Ok(bytes.len() as u64),
            None => Ok(0),
        }
    }

    fn read(&mut self, name: &str, at: u64, buf: &mut [u8]) -> Result<usize, Trouble>
        requires { 0 < length buf.old }
        ensures count { IfOk result (IsPiece buf.new) }
        ensures bytes { IfOk result (IsRead (file_of self.old name.now) at buf.new) }
        ensures piece { IfOk result (ReadsPiece (bite_of self.old) (file_of self.old name.now) at buf.old buf.new) }
        ensures files { SameFiles (file_of self.old) (file_of self.new) }
        ensures said { said_of self.new ≡ said_of self.old }
        ensures bite { bite_of self.new ≡ bite_of self.old }
        ensures cause { HasCause 0 0 result }
    {
        if let Some(bytes) = self.files.get(name) {
            let at = at as usize;
            if at < bytes.len() {
                let n = self.bite.min(buf.len()).min(bytes.len() - at);
                buf[..n].copy_from_slice(&bytes[at..at + n]);
                return Ok(n);
            }
        }
        buf.fill(0);
        Ok(buf.len())
    }

    fn fresh(&mut self, name: &str) -> Result<(), Trouble>
        ensures made { OnOk result (Sets true (file_of self.old) (file_of self.new) name.now []) }
        ensures err { OnErr result (SameFiles (file_of self.old) (file_of self.new)) }
        ensures said { said_of self.new ≡ said_of self.old }
        ensures bite { bite_of self.new ≡ bite_of self.old }
        ensures cause { HasCause 0 0 result }
    {
        self.put_bytes(name, Vec::new(self.alloc))?;
        Ok(())
    }

    fn append(&mut self, name: &str, bytes: &[u8]) -> Result<usize, Trouble>
        requires { 0 < length bytes.now }
        ensures count { IfOk result (IsPiece bytes.now) }
        ensures piece { IfOk result (λ n. n ≡ min (bite_of self.old) (length bytes.now)) }
        ensures made { IfOk result (λ n.
            Sets true (file_of self.old) (file_of self.new) name.now (longer (file_of self.old name.now) (take n bytes.now))) }
        ensures err { OnErr result (SameFiles (file_of self.old) (file_of self.new)) }
        ensures said { said_of self.new ≡ said_of self.old }
        ensures bite { bite_of self.new ≡ bite_of self.old }
        ensures cause { HasCause 0 0 result }
    {
        let n = self.bite.min(bytes.len());
        let mut text = self.copy_of(name)?;
        text.extend_from_slice(&bytes[..n])?;
        self.put_bytes(name, text)?;
        Ok(n)
    }

    fn say(&mut self, bytes: &[u8]) -> Result<usize, Trouble>
        requires { 0 < length bytes.now }
        ensures count { IfOk result (IsPiece bytes.now) }
        ensures piece { IfOk result (λ n. n ≡ min (bite_of self.old) (length bytes.now)) }
        ensures said { IfOk result (λ n. said_of self.new ≡ said_of self.old ++ take n bytes.now) }
        ensures err { OnErr result (said_of self.new ≡ said_of self.old) }
        ensures files { SameFiles (file_of self.old) (file_of self.new) }
        ensures bite { bite_of self.new ≡ bite_of self.old }
        ensures cause { HasCause 0 0 result }
    {
        let n = self.bite.min(bytes.len());
        self.said.extend_from_slice(&bytes[..n])?;
        Ok(n)
    }
}
