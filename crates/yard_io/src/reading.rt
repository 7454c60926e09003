//! Reading a file whole, over any desk.
ghost use Rattle.std.specs.Prelude.{◌≡◌, ◌≤◌, List, length, vec_len, IfOk, IfSome, IsErrOf};
ghost use Rattle.yard_io.specs.Desk.{Same, HasCause};

use crate::{Desk, Trouble};
use std::alloc::Global;

/// The most bytes that are asked for at once.
const PIECE: usize = 65_536;

fn zeros(alloc: Global, size: usize) -> Result<Vec<u8>, Trouble>
    ensures count { IfOk result (λ v. vec_len v ≡ size) }
    ensures err { IsErrOf result Trouble.Failed → ⊥ }
{
    Ok(vec![in alloc; 0u8; size]?)
}

/// The bytes of a file that has exactly `total` bytes. Of a file of another length so many bytes come, and nothing is
/// said of them.
#[tactic(auto, using(crate::proofs::Pieces::pieces))]
pub fn read_bytes<D: Desk>(
    alloc: Global,
    desk: &mut D,
    name: &str,
    total: u64,
) -> Result<Vec<u8>, Trouble>
    ensures bytes { IfOk result (λ v.
        IfSome (D.file desk.old name.now) (λ bytes. total ≡ length bytes → v.items ≡ bytes)) }
    ensures count { IfOk result (λ v. length v.items ≡ total) }
    ensures same { Same (D.file desk.old) (D.said desk.old) (D.file desk.new) (D.said desk.new) }
    ensures tells { D.tells desk.new ≡ D.tells desk.old }
    ensures cause { HasCause (D.read_faults desk.old) (D.read_faults desk.new) result }
    ensures writes { D.write_faults desk.old ≤ D.write_faults desk.new }
{
    let mut text = Vec::new(alloc);
    let mut piece = zeros(alloc, PIECE)?;
    let buf = piece.as_mut_slice();
    while (text.len() as u64) < total {
        let want = (total - text.len() as u64).min(buf.len() as u64) as usize;
        let n = desk.read(name, text.len() as u64, &mut buf[..want])?;
        text.extend_from_slice(&buf[..n])?;
    }
    Ok(text)
}

/// The bytes of a file: one call of `length`, then reads until so many bytes came.
pub fn read_file<D: Desk>(alloc: Global, desk: &mut D, name: &str) -> Result<Vec<u8>, Trouble>
    ensures bytes { IfOk result (λ v. IfSome (D.file desk.old name.now) (λ bytes. v.items ≡ bytes)) }
    ensures same { Same (D.file desk.old) (D.said desk.old) (D.file desk.new) (D.said desk.new) }
    ensures tells { D.tells desk.new ≡ D.tells desk.old }
    ensures cause { HasCause (D.read_faults desk.old) (D.read_faults desk.new) result }
    ensures writes { D.write_faults desk.old ≤ D.write_faults desk.new }
{
    let total = desk.length(name)?;
    read_bytes(alloc, desk, name, total)
}
