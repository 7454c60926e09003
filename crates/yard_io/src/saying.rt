//! Saying a text whole, over any desk.
ghost use Rattle.std.specs.Prelude.{◌≡◌, ◌≤◌, List, OnOk, OnErr};
ghost use Rattle.yard_io.specs.Desk.{SameFiles, SaidFront, HasCause, then_said};

use crate::{Desk, Trouble};

/// Says all the bytes, or a front of them where the desk does not go on. Each call is handed all that is not yet said.
#[tactic(auto, using(crate::proofs::Pieces::said_more))]
pub fn say_all<D: Desk>(desk: &mut D, bytes: &[u8]) -> Result<(), Trouble>
    ensures whole { OnOk result (D.said desk.new ≡ then_said (D.said desk.old) bytes.now) }
    ensures front { OnErr result (SaidFront (D.said desk.old) (D.said desk.new) bytes.now) }
    ensures files { SameFiles (D.file desk.old) (D.file desk.new) }
    ensures tells { D.tells desk.new ≡ D.tells desk.old }
    ensures cause { HasCause (D.write_faults desk.old) (D.write_faults desk.new) result }
    ensures reads { D.read_faults desk.old ≤ D.read_faults desk.new }
{
    let mut done = 0;
    while done < bytes.len() {
        done += desk.say(&bytes[done..])?;
    }
    Ok(())
}
