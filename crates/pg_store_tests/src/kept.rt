// What is kept.
use crate::rows::{numbers_of, row_of_ada, row_of_bob};
use pg_keep::Keeper;
use pg_keep_sql::SqlKeeper;
use std::fs;
use std::test::Fail;

#[test]
fn a_second_keeper_reads_what_a_first_one_kept(rt: HostRuntime) -> Result<(), Fail> {
    let alloc = rt.alloc();
    let _ = fs::remove_dir_all(&rt, "pg_store_tests_kept");
    fs::create_dir(&rt, "pg_store_tests_kept")?;
    let row = row_of_ada(alloc, 1)?;
    let mut first = SqlKeeper::new(alloc, rt);
    first.start(alloc, Some("pg_store_tests_kept/class.db"))?;
    first.append(alloc, &row)?;
    drop(first);
    let mut second = SqlKeeper::new(alloc, rt);
    second.start(alloc, Some("pg_store_tests_kept/class.db"))?;
    let found = second.rows_of(alloc, "ada")?;
    assert!(rt; found.len() == 1 && found[0] == row);
    assert_eq!(rt; second.faults(), 0);
    drop(second);
    fs::remove_dir_all(&rt, "pg_store_tests_kept")?;
    Ok(())
}

#[test]
fn rows_come_by_their_numbers(rt: HostRuntime) -> Result<(), Fail> {
    let alloc = rt.alloc();
    let mut keeper = SqlKeeper::new(alloc, rt);
    keeper.start(alloc, None)?;
    assert!(rt; numbers_of(alloc, &mut keeper, "ada")?.is_empty());
    for no in [10, 2, u32::MAX, 1] {
        keeper.append(alloc, &row_of_ada(alloc, no)?)?;
    }
    let row = row_of_bob(alloc, 2)?;
    keeper.append(alloc, &row)?;
    let numbers = numbers_of(alloc, &mut keeper, "ada")?;
    assert!(rt; numbers.as_slice() == [1, 2, 10, u32::MAX].as_slice());
    let found = keeper.rows_of(alloc, "bob")?;
    assert!(rt; found.len() == 1 && found[0] == row);
    assert!(rt; numbers_of(alloc, &mut keeper, "BOB")?.is_empty());
    assert_eq!(rt; keeper.faults(), 0);
    Ok(())
}

#[test]
fn a_start_without_a_name_has_no_rows(rt: HostRuntime) -> Result<(), Fail> {
    let alloc = rt.alloc();
    let mut keeper = SqlKeeper::new(alloc, rt);
    keeper.start(alloc, None)?;
    keeper.append(alloc, &row_of_ada(alloc, 1)?)?;
    keeper.start(alloc, None)?;
    assert!(rt; numbers_of(alloc, &mut keeper, "ada")?.is_empty());
    Ok(())
}
