use pg_base::{Door, MemoryDoor, MemoryLink, OutFault, Place, Sink, Source};
use std::alloc::{AllocError, Global};
use std::test::Fail;
use std::vec;

/// A door with two connections, which give `a` and `b`. Its calls of the numbers in `failing` fail.
fn two_connections(alloc: Global, failing: Vec<u64>) -> Result<MemoryDoor, AllocError> {
    let mut links = Vec::new(alloc);
    for byte in [b'a', b'b'] {
        let input = vec![in alloc; byte]?;
        links.push(MemoryLink::new(alloc, input, 1, Vec::new(alloc)))?;
    }
    MemoryDoor::new(alloc, links, failing)
}

/// Takes the next connection, sends its first byte back, and finishes it.
fn echo_next(door: &mut MemoryDoor) -> Result<Option<u8>, OutFault> {
    let Some(mut link) = door.next()? else {
        return Ok(None);
    };
    let byte = echo(&mut link);
    door.finish(link);
    byte.map(Some)
}

/// Takes a byte from a connection and sends it back.
fn echo(link: &mut MemoryLink) -> Result<u8, OutFault> {
    let mut into = [0u8; 1];
    link.read(&mut into)?;
    link.write(&into)?;
    Ok(into[0])
}

#[test]
fn a_failing_call_of_a_door_keeps_its_connections(rt: HostRuntime) -> Result<(), Fail> {
    let alloc = rt.alloc();
    let mut door = two_connections(alloc, vec![in alloc; 0, 2]?)?;
    assert_eq!(rt; door.start(Place::Port(80)), Err(OutFault::Failed));
    for want in [
        Ok(Some(b'a')),
        Err(OutFault::Failed),
        Ok(Some(b'b')),
        Ok(None),
    ] {
        assert_eq!(rt; echo_next(&mut door), want);
    }
    assert_eq!(rt; door.places(), [Place::Port(80)].as_slice());
    assert_eq!(rt; door.faults(), 2);
    for (link, want) in door.finished().iter().zip([b"a", b"b"]) {
        assert_eq!(rt; link.written(), want.as_slice());
    }
    Ok(())
}
