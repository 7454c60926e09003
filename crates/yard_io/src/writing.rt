//! Making a file whole, over any desk.
ghost use Rattle.std.specs.Prelude.{◌≡◌, ◌≤◌, List, OnOk, OnErr};
ghost use Rattle.yard_io.specs.Desk.{HasCause, Sets, MadeFront};

use crate::{Desk, Trouble};

/// Makes a file of these bytes; where the desk does not go on, of a front of them, or it leaves the files as they were.
/// Each call that adds bytes is handed all that are not yet there.
pub fn write_file<D: Desk>(desk: &mut D, name: &str, bytes: &[u8]) -> Result<(), Trouble>
    ensures whole { OnOk result (Sets (D.tells desk.old) (D.file desk.old) (D.file desk.new) name.now bytes.now) }
    ensures front { OnErr result (MadeFront (D.tells desk.old) (D.file desk.old) (D.file desk.new) name.now bytes.now) }
    ensures said { D.said desk.new ≡ D.said desk.old }
    ensures tells { D.tells desk.new ≡ D.tells desk.old }
    ensures cause { HasCause (D.write_faults desk.old) (D.write_faults desk.new) result }
    ensures reads { D.read_faults desk.old ≤ D.read_faults desk.new }
{
    desk.fresh(name)?;
    let mut done = 0;
    while done < bytes.len() {
        done += desk.append(name, &bytes[done..])?;
    }
    Ok(())
}
