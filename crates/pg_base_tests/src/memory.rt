use pg_base::{Files, MemoryFiles, MemoryLink, MemorySink, OutFault, Sink, Source};
use std::alloc::{AllocError, Global};
use std::test::Fail;
use std::vec;

#[test]
fn a_link_gives_its_bytes_in_pieces(rt: HostRuntime) -> Result<(), Fail> {
    let alloc = rt.alloc();
    let mut link = MemoryLink::new(alloc, b"abcdefg".to_vec(alloc)?, 3, Vec::new(alloc));
    let mut into = [0u8; 4];
    for (count, held) in [(3, b"abc\0"), (3, b"def\0"), (1, b"gef\0"), (0, b"gef\0")] {
        assert_eq!(rt; link.read(&mut into), Ok(count));
        assert!(rt; &into == held, "{count}");
    }
    Ok(())
}

#[test]
fn a_failing_call_of_a_link_does_nothing_but_count(rt: HostRuntime) -> Result<(), Fail> {
    let alloc = rt.alloc();
    let mut link = MemoryLink::new(alloc, b"ab".to_vec(alloc)?, 1, vec![in alloc; 0, 3]?);
    let mut into = [0u8; 1];
    assert_eq!(rt; link.read(&mut into), Err(OutFault::Failed));
    assert_eq!(rt; link.read(&mut into), Ok(1));
    assert_eq!(rt; into[0], b'a');
    assert_eq!(rt; link.write(b"xy"), Ok(2));
    assert_eq!(rt; link.write(b"z"), Err(OutFault::Failed));
    assert_eq!(rt; link.written(), b"xy".as_slice());
    assert_eq!(rt; (link.read_faults(), link.write_faults()), (1, 1));
    Ok(())
}

#[test]
fn a_sink_keeps_what_is_written_but_by_failing_calls(rt: HostRuntime) -> Result<(), Fail> {
    let alloc = rt.alloc();
    let mut sink = MemorySink::new(alloc, vec![in alloc; 1]?);
    for (piece, answer) in [
        (b"one ".as_slice(), Ok(4)),
        (b"two ".as_slice(), Err(OutFault::Failed)),
        (b"three".as_slice(), Ok(5)),
    ] {
        assert_eq!(rt; sink.write(piece), answer);
    }
    assert_eq!(rt; sink.written(), b"one three".as_slice());
    assert_eq!(rt; sink.faults(), 1);
    Ok(())
}

/// Two files of one name, and an empty one between them. The read of the number 5 fails.
fn three_files(alloc: Global) -> Result<MemoryFiles, AllocError> {
    let mut files = Vec::new(alloc);
    for (name, bytes) in [("a", b"first".as_slice()), ("b", b""), ("a", b"second")] {
        files.push((String::from_str(alloc, name)?, bytes.to_vec(alloc)?))?;
    }
    Ok(MemoryFiles::new(alloc, files, vec![in alloc; 5]?))
}

/// Whether the read gives these bytes, or fails where there are none.
fn gives(
    alloc: Global,
    files: &mut MemoryFiles,
    (name, limit): (&str, usize),
    want: Option<&[u8]>,
) -> bool {
    match files.read(alloc, name, limit) {
        Ok(front) => want == Some(front.as_slice()),
        Err(fault) => want.is_none() && fault == OutFault::Failed,
    }
}

#[test]
fn files_give_their_front_by_name(rt: HostRuntime) -> Result<(), Fail> {
    let alloc = rt.alloc();
    let mut files = three_files(alloc)?;
    for (name, limit, want) in [
        ("a", 9, Some(b"first".as_slice())),
        ("a", 3, Some(b"firs".as_slice())),
        ("a", usize::MAX, Some(b"first".as_slice())),
        ("b", 0, Some(b"".as_slice())),
        ("c", 9, None),
        ("a", 9, None),
        ("a", 4, Some(b"first".as_slice())),
    ] {
        assert!(rt;
            gives(alloc, &mut files, (name, limit), want),
            "{name} up to {limit}"
        );
    }
    assert_eq!(rt; files.faults(), 2);
    assert_eq!(rt; files.asked().len(), 7);
    Ok(())
}
