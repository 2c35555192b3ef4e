// Rows for the tests.
ghost use Rattle.std.specs.Prelude.{IfOk};
ghost use Rattle.pg_keep.specs.Rows.{IsShort, entry_of};

use pg_base::OutFault;
use pg_keep::{Keeper, Row};
use std::alloc::{AllocError, Global};

const SCRIPT: &str = "induction n with d hd\n· rw [add_zero]\n  rfl\n· rw [add_succ, hd]\n  rfl\n";

/// A row of `ada`.
pub fn row_of_ada(alloc: Global, no: u32) -> Result<Row, AllocError>
    ensures { IfOk result (λ row. IsShort (entry_of row)) }
{
    Ok(Row {
        player: String::from_str(alloc, "ada")?,
        no,
        world: String::from_str(alloc, "Addition")?,
        level: 1,
        script: String::from_str(alloc, SCRIPT)?,
        closed: true,
    })
}

/// A row of `bob`, of another level, with an empty script.
pub fn row_of_bob(alloc: Global, no: u32) -> Result<Row, AllocError>
    ensures { IfOk result (λ row. IsShort (entry_of row)) }
{
    Ok(Row {
        player: String::from_str(alloc, "bob")?,
        no,
        world: String::from_str(alloc, "Übung")?,
        level: 65535,
        script: String::new(alloc),
        closed: false,
    })
}

/// The numbers of a player's rows, as a keeper gives them.
pub fn numbers_of<K: Keeper>(
    alloc: Global,
    keeper: &mut K,
    player: &str,
) -> Result<Vec<u32>, OutFault> {
    let mut numbers = Vec::new(alloc);
    let rows = keeper.rows_of(alloc, player)?;
    for row in &rows {
        numbers.push(row.no)?;
    }
    Ok(numbers)
}
