//! Files and standard output, as a trait.
ghost use Rattle.std.specs.Prelude.{◌≡◌, ℕ, ◌<◌, ◌≤◌, [], Bool, List, Option, length, take, IfOk, IfSome, OnOk, OnErr};
ghost use Rattle.yard_io.specs.Desk.{HasCause, Same, SameFiles, IsRead, Sets, IsPiece, then_said, longer};

use crate::Trouble;

/// Files by name, and what is said.
///
/// Contracts see the bytes of each file and the said bytes, each told or not, whether the desk tells the files that it
/// has, and two counts of faults. The counts never fall; one that stands at the greatest u64 counts as risen. After an
/// Err the files and the said bytes are as before, and no method but the one that says so changes either.
pub trait Desk {
    // the bytes of the file under each name, where they are told
    ghost file: { Self → List ℕ → Option (List ℕ) };

    // whether the desk tells the files that it has
    ghost tells: { Self → Bool };

    // the said bytes, where they are told
    ghost said: { Self → Option (List ℕ) };

    ghost read_faults: { Self → ℕ };

    ghost write_faults: { Self → ℕ };

    /// The number of bytes of a file.
    fn length(&mut self, name: &str) -> Result<u64, Trouble>
        ensures count { IfOk result (λ n. IfSome (file self.old name.now) (λ bytes. n ≡ length bytes)) }
        ensures same { Same (file self.old) (said self.old) (file self.new) (said self.new) }
        ensures tells { tells self.new ≡ tells self.old }
        ensures cause { HasCause (read_faults self.old) (read_faults self.new) result }
        ensures writes { write_faults self.old ≤ write_faults self.new };

    /// Reads at least one byte into the front of `buf`: the file's bytes from place `at` on. Answers how many. At or
    /// past the end of the file nothing is said of the bytes.
    fn read(&mut self, name: &str, at: u64, buf: &mut [u8]) -> Result<usize, Trouble>
        requires { 0 < length buf.old }
        ensures count { IfOk result (IsPiece buf.new) }
        ensures bytes { IfOk result (IsRead (file self.old name.now) at buf.new) }
        ensures same { Same (file self.old) (said self.old) (file self.new) (said self.new) }
        ensures tells { tells self.new ≡ tells self.old }
        ensures cause { HasCause (read_faults self.old) (read_faults self.new) result }
        ensures writes { write_faults self.old ≤ write_faults self.new };

    /// Makes a file empty, whether it existed or not.
    fn fresh(&mut self, name: &str) -> Result<(), Trouble>
        ensures made { OnOk result (Sets (tells self.old) (file self.old) (file self.new) name.now []) }
        ensures said { said self.new ≡ said self.old }
        ensures err { OnErr result (SameFiles (file self.old) (file self.new)) }
        ensures tells { tells self.new ≡ tells self.old }
        ensures cause { HasCause (write_faults self.old) (write_faults self.new) result }
        ensures reads { read_faults self.old ≤ read_faults self.new };

    /// Adds at least one of the bytes, the first ones, at the file's end. Answers how many. A missing file counts as
    /// an empty one.
    fn append(&mut self, name: &str, bytes: &[u8]) -> Result<usize, Trouble>
        requires { 0 < length bytes.now }
        ensures count { IfOk result (IsPiece bytes.now) }
        ensures made { IfOk result (λ n.
            Sets (tells self.old) (file self.old) (file self.new) name.now (longer (file self.old name.now) (take n bytes.now))) }
        ensures said { said self.new ≡ said self.old }
        ensures err { OnErr result (SameFiles (file self.old) (file self.new)) }
        ensures tells { tells self.new ≡ tells self.old }
        ensures cause { HasCause (write_faults self.old) (write_faults self.new) result }
        ensures reads { read_faults self.old ≤ read_faults self.new };

    /// Says at least one of the bytes, the first ones. Answers how many.
    fn say(&mut self, bytes: &[u8]) -> Result<usize, Trouble>
        requires { 0 < length bytes.now }
        ensures count { IfOk result (IsPiece bytes.now) }
        ensures said { IfOk result (λ n. said self.new ≡ then_said (said self.old) (take n bytes.now)) }
        ensures files { SameFiles (file self.old) (file self.new) }
        ensures err { OnErr result (said self.new ≡ said self.old) }
        ensures tells { tells self.new ≡ tells self.old }
        ensures cause { HasCause (write_faults self.old) (write_faults self.new) result }
        ensures reads { read_faults self.old ≤ read_faults self.new };
}
