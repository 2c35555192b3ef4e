use pg_base::{Door, OutFault, Pipe, Place, Sink, Source, StandardDoor, Writing};
use std::io::{self, Read, Write};
use std::test::Fail;

/// A reader that gives the byte `x` and fails at each call after it.
#[derive(Drop)]
struct Broken {
    calls: u8,
}

impl Read for Broken {
    fn read(&mut self, buf: &mut [u8]) -> io::Result<usize> {
        self.calls = self.calls.saturating_add(1);
        if self.calls > 1 || buf.is_empty() {
            return Err(io::ErrorKind::Other.into());
        }
        buf[0] = b'x';
        Ok(1)
    }
}

/// A writer that takes one byte of `ab`, then none, and then fails.
#[derive(Drop)]
struct Full {
    calls: u8,
}

impl Write for Full {
    fn write(&mut self, buf: &[u8]) -> io::Result<usize> {
        self.calls = self.calls.saturating_add(1);
        match self.calls {
            1 if buf == b"ab".as_slice() => Ok(1),
            2 => Ok(0),
            _ => Err(io::ErrorKind::Other.into()),
        }
    }

    fn flush(&mut self) -> io::Result<()> {
        Ok(())
    }
}

#[test]
fn a_pipe_and_a_sink_count_failures_in_mid_stream(rt: HostRuntime) {
    let mut pipe = Pipe::new(Broken { calls: 0 }, Full { calls: 0 });
    let mut sink = Writing::new(Full { calls: 0 });
    let mut into = [0u8; 2];
    for answer in [Ok(1), Err(OutFault::Failed)] {
        assert_eq!(rt; pipe.read(&mut into), answer);
        assert_eq!(rt; &into, b"x\0");
    }
    for answer in [Ok(1), Err(OutFault::Failed), Err(OutFault::Failed)] {
        assert_eq!(rt; pipe.write(b"ab"), answer);
        assert_eq!(rt; sink.write(b"ab"), answer);
    }
    assert_eq!(rt; (pipe.read_faults(), pipe.write_faults()), (1, 2));
    assert_eq!(rt; sink.faults(), 2);
}

#[test]
fn the_standard_door_gives_its_one_connection(rt: HostRuntime) -> Result<(), Fail> {
    let alloc = rt.alloc();
    let input: &[u8] = b"abc";
    let mut door = StandardDoor::new(alloc, Pipe::new(input, Full { calls: 0 }));
    assert_eq!(rt; door.start(Place::Standard), Ok(()));
    assert_eq!(rt; door.start(Place::Port(80)), Err(OutFault::Failed));
    assert_eq!(rt;
        door.places(),
        [Place::Standard, Place::Port(80)].as_slice()
    );
    assert_eq!(rt; door.faults(), 1);
    let Some(mut pipe) = door.next()? else {
        return Err("no connection was given".into());
    };
    let mut into = [0u8; 2];
    for (count, held) in [(2, b"ab"), (1, b"cb"), (0, b"cb")] {
        assert_eq!(rt; pipe.read(&mut into), Ok(count));
        assert!(rt; &into == held, "{count}");
    }
    assert!(rt; door.next()?.is_none());
    door.finish(pipe);
    assert!(rt; door.next()?.is_none());
    Ok(())
}
