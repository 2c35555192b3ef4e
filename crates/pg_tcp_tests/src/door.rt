// A door, and who comes through it.
use pg_base::{Door, OutFault, Place, Sink, Source};
use pg_tcp::HostDoor;
use std::io::{Read, Write};
use std::net::{Ipv4Addr, TcpListener, TcpStream};
use std::test::Fail;

/// A port of this machine that nobody waits at.
fn free_port(rt: &HostRuntime) -> Result<u16, Fail> {
    let listener = TcpListener::bind(rt, (Ipv4Addr::LOCALHOST, 0))?;
    Ok(listener.local_addr()?.port())
}

#[test]
fn clients_are_answered_one_after_the_other(rt: HostRuntime) -> Result<(), Fail> {
    let alloc = rt.alloc();
    let port = free_port(&rt)?;
    let mut door = HostDoor::new(alloc, rt, rt.stdin(), rt.stdout());
    door.start(Place::Port(port))?;
    let replies: [&[u8]; 2] = [b"first", b"second"];
    for reply in replies {
        let mut client = TcpStream::connect(&rt, (Ipv4Addr::LOCALHOST, port))?;
        client.write_all(b"request")?;
        let Some(mut conn) = door.next()? else {
            assert!(rt; false, "nobody came");
            return Ok(());
        };
        let mut bytes = [0u8; 16];
        assert_eq!(rt; conn.read(&mut bytes)?, 7);
        assert_eq!(rt; &bytes[..7], b"request".as_slice());
        assert_eq!(rt; conn.write(reply)?, reply.len());
        door.finish(conn);
        let mut back = Vec::new(alloc);
        client.read_to_end(&mut back)?;
        assert_eq!(rt; back.as_slice(), reply);
    }
    assert_eq!(rt; door.faults(), 0);
    Ok(())
}

#[test]
fn a_client_that_ends_its_request_is_read_to_the_end(rt: HostRuntime) -> Result<(), Fail> {
    let alloc = rt.alloc();
    let port = free_port(&rt)?;
    let mut door = HostDoor::new(alloc, rt, rt.stdin(), rt.stdout());
    door.start(Place::Port(port))?;
    let mut client = TcpStream::connect(&rt, (Ipv4Addr::LOCALHOST, port))?;
    client.write_all(b"x")?;
    drop(client);
    let Some(mut conn) = door.next()? else {
        assert!(rt; false, "nobody came");
        return Ok(());
    };
    let mut bytes = [0u8; 16];
    assert_eq!(rt; conn.read(&mut bytes)?, 1);
    assert_eq!(rt; conn.read(&mut bytes)?, 0);
    Ok(())
}

#[test]
fn a_port_in_use_is_refused(rt: HostRuntime) -> Result<(), Fail> {
    let alloc = rt.alloc();
    let listener = TcpListener::bind(&rt, (Ipv4Addr::LOCALHOST, 0))?;
    let port = listener.local_addr()?.port();
    let mut door = HostDoor::new(alloc, rt, rt.stdin(), rt.stdout());
    assert!(rt; door.start(Place::Port(port)) == Err(OutFault::Failed));
    assert_eq!(rt; door.faults(), 1);
    assert!(rt; door.places() == [Place::Port(port)].as_slice());
    Ok(())
}

#[test]
fn the_standard_streams_come_once(rt: HostRuntime) -> Result<(), Fail> {
    let alloc = rt.alloc();
    let mut door = HostDoor::new(alloc, rt, rt.stdin(), rt.stdout());
    assert!(rt; door.next()?.is_none());
    door.start(Place::Standard)?;
    let Some(mut conn) = door.next()? else {
        assert!(rt; false, "the streams were not given");
        return Ok(());
    };
    let mut bytes = [0u8; 16];
    assert_eq!(rt; conn.read(&mut bytes)?, 0);
    door.finish(conn);
    assert!(rt; door.next()?.is_none());
    assert_eq!(rt; door.faults(), 0);
    Ok(())
}
