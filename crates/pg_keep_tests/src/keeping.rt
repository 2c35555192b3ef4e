//! A row that is kept.
ghost use Rattle.std.specs.Prelude.{IfOk};
ghost use Rattle.pg_keep.specs.Rows.{IsShort, entry_of};

use pg_keep::{Keeper, MemoryKeeper, Row};
use std::alloc::{AllocError, Global};
use std::test::Fail;

/// A row of `ada`.
fn row(alloc: Global) -> Result<Row, AllocError>
    ensures { IfOk result (λ row. IsShort (entry_of row)) }
{
    Ok(Row {
        player: String::from_str(alloc, "ada")?,
        no: 1,
        world: String::from_str(alloc, "Addition")?,
        level: 1,
        script: String::from_str(alloc, "rfl")?,
        closed: true,
    })
}

/// How many rows of this player a keeper in memory has behind one row of `ada`; None where a call fails.
fn rows_of(alloc: Global, player: &str) -> Result<Option<usize>, AllocError> {
    let mut keeper = MemoryKeeper::new(alloc, Vec::new(alloc), Vec::new(alloc));
    let row = row(alloc)?;
    if keeper.append(alloc, &row).is_err() {
        return Ok(None);
    }
    match keeper.rows_of(alloc, player) {
        Ok(found) => Ok(Some(found.len())),
        Err(_) => Ok(None),
    }
}

#[test]
fn a_row_is_kept_for_its_player(rt: HostRuntime) -> Result<(), Fail> {
    let alloc = rt.alloc();
    assert!(rt; rows_of(alloc, "ada")? == Some(1));
    assert!(rt; rows_of(alloc, "bob")? == Some(0));
    Ok(())
}
