// The statements of the store, each by its own text with parameters.
ghost use Rattle.std.specs.Prelude.{◌≡◌, ◌≢◌, ◌≤◌, ℕ, pos, List, map, string_bytes, All, IsUtf8, IfOk, IfErr};
ghost use Rattle.sqlite.specs.Order.{column};
ghost use Rattle.sqlite.specs.declared.types.Value.TheVariants.{Int, Text};
ghost use Rattle.sqlite.specs.Held.{state};
ghost use Rattle.pg_keep.specs.Rows.{entry_of};
ghost use Rattle.pg_keep_sql.specs.Statements.{FailsToSelect, Fits, Inserts, IsRefusal, MakesTable, Refuses, Selects, Shows, fault, values, with_player};

use pg_base::OutFault;
use pg_keep::Row;
use sqlite::{Alter, Connection, Error, ErrorCode, params};
use std::alloc::Global;

const TABLE: &str =
    "CREATE TABLE IF NOT EXISTS attempt (player TEXT NOT NULL, no INTEGER NOT NULL, world TEXT NOT NULL, level INTEGER NOT NULL, script TEXT NOT NULL, closed INTEGER NOT NULL, PRIMARY KEY (player, no)) STRICT";

const INSERT: &str =
    "INSERT INTO attempt (player, no, world, level, script, closed) VALUES (?1, ?2, ?3, ?4, ?5, ?6)";

const SELECT: &str =
    "SELECT no, world, level, script, closed FROM attempt WHERE player = ?1 ORDER BY no";

/// Makes the table where there is none.
pub(crate) fn make_table<S: Alter>(conn: &mut Connection<S>) -> Result<(), Error>
    ensures { MakesTable result (state S.Store conn.old) (state S.Store conn.new) }
{
    conn.execute(TABLE, &[])?;
    Ok(())
}

/// Puts a row into the table. A row of that player with that number is there at most once.
pub(crate) fn add<S: Alter>(conn: &mut Connection<S>, row: &Row) -> Result<(), Error>
    ensures { Inserts (entry_of row.now) result (state S.Store conn.old) (state S.Store conn.new) }
{
    conn.execute(
        INSERT,
        params![
            &row.player,
            row.no,
            &row.world,
            i64::from(row.level),
            &row.script,
            row.closed
        ],
    )?;
    Ok(())
}

/// The rows of a player by their numbers.
pub(crate) fn find<S: Alter>(
    alloc: Global,
    conn: &mut Connection<S>,
    player: &str,
) -> Result<Vec<Row>, Error>
    ensures rows { IfOk result (λ found.
        Selects player.now (map entry_of found.items) (state S.Store conn.old) (state S.Store conn.new)) }
    ensures fails { IfErr result (λ e. IsRefusal e
        → FailsToSelect player.now (state S.Store conn.old) (state S.Store conn.new)) }
{
    let shown = select(conn, player)?;
    rows_from(alloc, &shown, player)
}

/// What the database shows of a player's rows.
fn select<S: Alter>(conn: &mut Connection<S>, player: &str) -> Result<Vec<sqlite::Row>, Error>
    ensures shown { IfOk result (λ shown.
        Shows player.now shown.items (state S.Store conn.old) (state S.Store conn.new)) }
    ensures fails { IfErr result (λ e.
        Refuses player.now e (state S.Store conn.old) (state S.Store conn.new)) }
{
    conn.query_all(SELECT, params![player])
}

/// What is shown of a player's rows as rows.
fn rows_from(alloc: Global, shown: &[sqlite::Row], player: &str) -> Result<Vec<Row>, Error>
    ensures rows { IfOk result (λ found.
        map (with_player player.now) shown.now ≡ map values (map entry_of found.items)) }
    ensures other { IfErr result (λ e. IsRefusal e → ¬ All (Fits player.now) shown.now) }
{
    let mut found = Vec::new(alloc);
    for row in shown {
        found.push(row_from(row, String::from_str(alloc, player)?)?)?;
    }
    Ok(found)
}

/// A row that is shown, where its values fit.
fn row_from(shown: &sqlite::Row, player: String) -> Result<Row, Error>
    ensures row { IfOk result (λ row.
        with_player (string_bytes player) shown.now ≡ values (entry_of row)) }
    ensures other { IfErr result (λ e. IsRefusal e → ¬ Fits (string_bytes player) shown.now) }
{
    let no = number(shown, 0, u32::MAX)?;
    let world = text(shown, 1)?;
    let level = number(shown, 2, 65_535)?;
    let script = text(shown, 3)?;
    let closed = number(shown, 4, 1)?;
    Ok(Row {
        player,
        no,
        world,
        level: level as u16,
        script,
        closed: closed == 1,
    })
}

/// The number in a column, which is at most this one.
fn number(shown: &sqlite::Row, at: usize, most: u32) -> Result<u32, Error>
    ensures number { IfOk result (λ n. (n ≤ most) × (column shown.now at ≡ Int (pos n))) }
    ensures other { IfErr result (λ e. IsRefusal e → (n : ℕ) → n ≤ most → column shown.now at ≢ Int (pos n)) }
{
    let number: u32 = shown.get(at)?;
    if number > most {
        return Err(Error::IntegralValueOutOfRange(at));
    }
    Ok(number)
}

/// The text in a column.
fn text(shown: &sqlite::Row, at: usize) -> Result<String, Error>
    ensures text { IfOk result (λ text. column shown.now at ≡ Text (string_bytes text)) }
    ensures other { IfErr result (λ e. IsRefusal e → (text : List ℕ) → IsUtf8 text → column shown.now at ≢ Text text) }
{
    shown.get(at)
}

/// Want of memory, or any other refusal.
pub(crate) fn fault_of(error: Error) -> OutFault
    ensures { result ≡ fault error }
{
    match error {
        Error::SqliteFailure(ErrorCode::OutOfMemory) => OutFault::OutOfMemory,
        _ => OutFault::Failed,
    }
}
