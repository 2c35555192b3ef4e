//! Rosters, and files that are none.
use pg_roster::{RosterFault, read_roster};
use std::alloc::Global;
use std::test::Fail;

/// How many players a file has, or its fault.
fn players(alloc: Global, bytes: &[u8]) -> Result<usize, RosterFault> {
    Ok(read_roster(alloc, bytes)?.players().len())
}

#[test]
fn a_roster_is_read(rt: HostRuntime) -> Result<(), Fail> {
    let alloc = rt.alloc();
    assert!(rt; players(alloc, b"player,pass\nada,x8\nbob,y9\n") == Ok(2));
    assert!(rt;
        players(alloc, b"player,pass\nada,x8,more\n") == Err(RosterFault::Width { row: 1 })
    );
    assert!(rt;
        players(alloc, b"player,pass\nada,x8\nada\n") == Err(RosterFault::Width { row: 2 })
    );
    assert!(rt; players(alloc, b"player,pass\n") == Err(RosterFault::Empty));
    Ok(())
}
