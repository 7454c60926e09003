//! The example worked by hand, and moves among three chains.
ghost use Rattle.std.specs.Prelude.{◌<◌, length};

use shape_exact::NoMemory;
use watch_chains::Chains;

/// Whether the chain has these entries, in this order.
fn has_list(chains: &Chains, chain: u32, expected: &[u32]) -> bool
    requires { chain < length chains.now.lists }
{
    let mut cursor = chains.first(chain);
    for want in expected {
        match cursor {
            Some(entry) if entry == *want => cursor = chains.next(entry),
            _ => return false,
        }
    }
    cursor.is_none()
}

#[test]
fn an_entry_moves_and_comes_back(rt: HostRuntime) -> Result<(), NoMemory> {
    let mut chains = Chains::new(rt.alloc(), 2)?;
    assert!(rt; has_list(&chains, 0, &[]));
    chains.reserve(3, 1)?;
    chains.add(0);
    chains.add(0);
    chains.add(0);
    assert!(rt; has_list(&chains, 0, &[2, 1, 0]));
    assert!(rt; has_list(&chains, 1, &[]));
    chains.move_to(1, 1);
    assert!(rt; has_list(&chains, 0, &[2, 0]));
    assert!(rt; has_list(&chains, 1, &[1]));
    assert_eq!(rt; chains.chain_of(1), 1);
    assert_eq!(rt; chains.open_moves(), 1);
    chains.undo();
    assert!(rt; has_list(&chains, 0, &[2, 1, 0]));
    assert!(rt; has_list(&chains, 1, &[]));
    assert_eq!(rt; chains.chain_of(1), 0);
    assert_eq!(rt; chains.open_moves(), 0);
    Ok(())
}

/// Moves within a chain, of a first and of a last entry, and back; room that is made while moves are open.
#[test]
fn moves_are_undone_in_turn(rt: HostRuntime) -> Result<(), NoMemory> {
    let mut chains = Chains::new(rt.alloc(), 3)?;
    chains.reserve(4, 2)?;
    chains.add(0);
    chains.add(0);
    chains.add(2);
    chains.add(0);
    assert!(rt; has_list(&chains, 0, &[3, 1, 0]));
    assert!(rt; has_list(&chains, 2, &[2]));
    chains.move_to(0, 0);
    assert!(rt; has_list(&chains, 0, &[0, 3, 1]));
    chains.move_to(0, 2);
    assert!(rt; has_list(&chains, 2, &[0, 2]));
    chains.reserve(0, 2)?;
    chains.move_to(2, 1);
    chains.move_to(1, 1);
    assert!(rt; has_list(&chains, 0, &[3]));
    assert!(rt; has_list(&chains, 1, &[1, 2]));
    assert!(rt; has_list(&chains, 2, &[0]));
    assert_eq!(rt; chains.open_moves(), 4);
    chains.undo();
    chains.undo();
    assert!(rt; has_list(&chains, 0, &[3, 1]));
    assert!(rt; has_list(&chains, 1, &[]));
    assert!(rt; has_list(&chains, 2, &[0, 2]));
    chains.undo();
    assert!(rt; has_list(&chains, 0, &[0, 3, 1]));
    chains.undo();
    assert!(rt; has_list(&chains, 0, &[3, 1, 0]));
    assert!(rt; has_list(&chains, 2, &[2]));
    Ok(())
}
