//! What a run makes and says, and the status that goes with it.
ghost use Rattle.std.specs.Prelude.{◌≡◌, ◌≤◌, IfOk, OnOk, OnErr};
ghost use Rattle.yard_io.specs.Desk.{HasCause};
ghost use Rattle.scheduler_run.specs.Refusals.{IsUsage, IsRefusal};
ghost use Rattle.scheduler_run.specs.Outcomes.{outcome_of, Makes, MakesFront, Wrote, WroteFront, KeepsBut};

use shape_exact::NoMemory;
use std::alloc::Global;
use yard_io::{Desk, Trouble, say_all, write_file};

/// A file that a run makes.
#[derive(Drop)]
pub(crate) struct Made<'a> {
    pub(crate) name: &'a str,
    pub(crate) bytes: Vec<u8>,
}

/// What a run makes and says, and the status that goes with it.
#[derive(Drop)]
pub(crate) struct Reply<'a> {
    pub(crate) status: u8,
    pub(crate) made: Option<Made<'a>>,
    pub(crate) said: Vec<u8>,
}

/// The usage line.
pub(crate) fn usage<'a>(alloc: Global) -> Result<Reply<'a>, NoMemory>
    ensures { IfOk result (λ reply. IsUsage (outcome_of reply)) }
{
    Ok(Reply {
        status: 2,
        made: None,
        said: Vec::from_slice(
            alloc,
            b"usage: plan YARD LOG WORKERS SPLIT | check YARD PLAN LOG | gen SEED BLOCKS | load SEED BLOCKS WORKERS\n",
        )?,
    })
}

/// The reply of a refusal with this line.
pub(crate) fn refusal<'a>(line: Vec<u8>) -> Reply<'a>
    ensures { IsRefusal line.items (outcome_of result) }
{
    Reply {
        status: 1,
        made: None,
        said: line,
    }
}

/// Makes the file of a reply, if it has one, or a front of it.
fn make_file<D: Desk>(reply: &Reply<'_>, desk: &mut D) -> Result<(), Trouble>
    ensures whole { OnOk result (Makes (D.tells desk.old) (D.file desk.old) (D.file desk.new) (outcome_of reply.now).made) }
    ensures front { OnErr result (MakesFront (D.tells desk.old) (D.file desk.old) (D.file desk.new) (outcome_of reply.now).made) }
    ensures others { KeepsBut (outcome_of reply.now).made (D.file desk.old) (D.file desk.new) }
    ensures said { D.said desk.new ≡ D.said desk.old }
    ensures cause { HasCause (D.write_faults desk.old) (D.write_faults desk.new) result }
    ensures reads { D.read_faults desk.old ≤ D.read_faults desk.new }
{
    match &reply.made {
        Some(made) => write_file(desk, made.name, made.bytes.as_slice()),
        None => Ok(()),
    }
}

/// Makes the file of a reply, if it has one, and then says what it says; or writes a front of both, in this order.
pub(crate) fn write_reply<D: Desk>(reply: &Reply<'_>, desk: &mut D) -> Result<(), Trouble>
    ensures whole { OnOk result (Wrote (D.tells desk.old) (outcome_of reply.now)
        (D.file desk.old) (D.file desk.new) (D.said desk.old) (D.said desk.new)) }
    ensures front { OnErr result (WroteFront (D.tells desk.old) (outcome_of reply.now)
        (D.file desk.old) (D.file desk.new) (D.said desk.old) (D.said desk.new)) }
    ensures others { KeepsBut (outcome_of reply.now).made (D.file desk.old) (D.file desk.new) }
    ensures cause { HasCause (D.write_faults desk.old) (D.write_faults desk.new) result }
    ensures reads { D.read_faults desk.old ≤ D.read_faults desk.new }
{
    make_file(reply, desk)?;
    say_all(desk, reply.said.as_slice())
}
