// What is a counted fault.
use crate::rows::{numbers_of, row_of_ada};
use pg_base::OutFault;
use pg_keep::Keeper;
use pg_keep_sql::SqlKeeper;
use sqlite::{Connection, Error};
use std::fs;
use std::test::Fail;

#[test]
fn calls_before_a_start_are_counted(rt: HostRuntime) -> Result<(), Fail> {
    let alloc = rt.alloc();
    let mut keeper = SqlKeeper::new(alloc, rt);
    let row = row_of_ada(alloc, 1)?;
    assert!(rt; keeper.append(alloc, &row) == Err(OutFault::Failed));
    assert!(rt; numbers_of(alloc, &mut keeper, "ada") == Err(OutFault::Failed));
    for name in ["pg_store_tests_no_folder/class.db", ".", ""] {
        assert!(rt;
            keeper.start(alloc, Some(name)) == Err(OutFault::Failed),
            "{name}"
        );
    }
    assert_eq!(rt; keeper.faults(), 5);
    keeper.start(alloc, None)?;
    assert!(rt; numbers_of(alloc, &mut keeper, "ada")?.is_empty());
    Ok(())
}

#[test]
fn a_number_that_stands_is_refused(rt: HostRuntime) -> Result<(), Fail> {
    let alloc = rt.alloc();
    let mut keeper = SqlKeeper::new(alloc, rt);
    keeper.start(alloc, None)?;
    let row = row_of_ada(alloc, 1)?;
    keeper.append(alloc, &row)?;
    assert!(rt; keeper.append(alloc, &row) == Err(OutFault::Failed));
    assert_eq!(rt; keeper.faults(), 1);
    assert!(rt; numbers_of(alloc, &mut keeper, "ada")?.as_slice() == [1].as_slice());
    Ok(())
}

#[test]
fn a_file_in_use_is_refused(rt: HostRuntime) -> Result<(), Fail> {
    let alloc = rt.alloc();
    let _ = fs::remove_dir_all(&rt, "pg_store_tests_busy");
    fs::create_dir(&rt, "pg_store_tests_busy")?;
    let mut first = SqlKeeper::new(alloc, rt);
    first.start(alloc, Some("pg_store_tests_busy/class.db"))?;
    let mut second = SqlKeeper::new(alloc, rt);
    let refused = second.start(alloc, Some("pg_store_tests_busy/class.db"));
    assert!(rt; refused == Err(OutFault::Failed));
    assert_eq!(rt; second.faults(), 1);
    first.append(alloc, &row_of_ada(alloc, 1)?)?;
    drop(first);
    second.start(alloc, Some("pg_store_tests_busy/class.db"))?;
    assert!(rt; numbers_of(alloc, &mut second, "ada")?.as_slice() == [1].as_slice());
    drop(second);
    fs::remove_dir_all(&rt, "pg_store_tests_busy")?;
    Ok(())
}

/// Writes rows that no keeper writes: a number, a level or a flag is too large or too small.
fn spoil(rt: &HostRuntime, path: &str) -> Result<(), Error> {
    let mut conn = Connection::open(rt, path)?;
    conn.execute_batch(
        "INSERT INTO attempt VALUES ('a', 4294967296, 'W', 1, '', 1), ('b', -1, 'W', 1, '', 1), ('c', 1, 'W', 65536, '', 1), ('d', 1, 'W', -1, '', 1), ('e', 1, 'W', 1, '', 2), ('f', 1, 'W', 65535, '', 0)",
    )?;
    conn.close()
}

#[test]
fn values_that_do_not_fit_are_counted(rt: HostRuntime) -> Result<(), Fail> {
    let alloc = rt.alloc();
    let _ = fs::remove_dir_all(&rt, "pg_store_tests_spoiled");
    fs::create_dir(&rt, "pg_store_tests_spoiled")?;
    let mut first = SqlKeeper::new(alloc, rt);
    first.start(alloc, Some("pg_store_tests_spoiled/class.db"))?;
    drop(first);
    spoil(&rt, "pg_store_tests_spoiled/class.db")?;
    let mut keeper = SqlKeeper::new(alloc, rt);
    keeper.start(alloc, Some("pg_store_tests_spoiled/class.db"))?;
    for player in ["a", "b", "c", "d", "e"] {
        let found = numbers_of(alloc, &mut keeper, player);
        assert!(rt; found == Err(OutFault::Failed), "{player}");
    }
    assert_eq!(rt; keeper.faults(), 5);
    assert!(rt; numbers_of(alloc, &mut keeper, "f")?.as_slice() == [1].as_slice());
    drop(keeper);
    fs::remove_dir_all(&rt, "pg_store_tests_spoiled")?;
    Ok(())
}
