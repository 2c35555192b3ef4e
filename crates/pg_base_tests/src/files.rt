use pg_base::{Files, OutFault, RealFiles};
use std::fs;
use std::test::Fail;

#[test]
fn real_files_give_their_front(rt: HostRuntime) -> Result<(), Fail> {
    let alloc = rt.alloc();
    let mut bytes = Vec::new(alloc);
    for number in 0..6000u64 {
        bytes.push((number % 251) as u8)?;
    }
    fs::write(&rt, "real_files_test", bytes.as_slice())?;
    let mut files = RealFiles::new(alloc, &rt);
    for (limit, want) in [
        (0, 1),
        (4095, 4096),
        (4096, 4097),
        (5998, 5999),
        (5999, 6000),
        (6000, 6000),
        (usize::MAX, 6000),
    ] {
        let front = files.read(alloc, "real_files_test", limit)?;
        assert_eq!(rt; Some(front.as_slice()), bytes.get(..want), "up to {limit}");
    }
    fs::remove_file(&rt, "real_files_test")?;
    assert_eq!(rt; files.faults(), 0);
    Ok(())
}

#[test]
fn a_name_that_is_not_there_and_a_folder_are_counted(rt: HostRuntime) {
    let alloc = rt.alloc();
    let names = ["not_there_test", "."];
    let mut files = RealFiles::new(alloc, &rt);
    for name in names {
        assert!(rt;
            matches!(files.read(alloc, name, 9), Err(OutFault::Failed)),
            "{name}"
        );
    }
    assert_eq!(rt; files.faults(), 2);
    assert_eq!(rt; files.asked().len(), 2);
    for (asked, name) in files.asked().iter().zip(names) {
        assert_eq!(rt; asked.as_str(), name);
    }
}
