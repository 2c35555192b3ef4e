// Where the rows of a keeper are.
ghost use Rattle.std.specs.Prelude.{◌≡◌, IfOk};
ghost use Rattle.pg_keep.specs.Rows.{entry_of};
ghost use Rattle.pg_keep.specs.Keeping.{name_of};
ghost use Rattle.pg_keep_sql.specs.Store.{Appends, Finds, StandsFor, told};

use crate::statements::{add, fault_of, find, make_table};
use pg_base::OutFault;
use pg_keep::Row;
use sqlite::{Connection, Error, File, FileStore, MemStore};
use std::alloc::Global;

/// A database in a file or in memory, or none yet.
#[derive(Drop)]
pub(crate) enum Store {
    Closed,
    File(Connection<FileStore<File>>),
    Memory(Connection<MemStore>),
}

impl Store {
    /// The store of this name, or one in memory, with its table.
    pub(crate) fn open(
        alloc: Global,
        rt: &HostRuntime,
        name: Option<&str>,
    ) -> Result<Store, OutFault>
        ensures { IfOk result (StandsFor (name_of name.entry)) }
    {
        match name {
            Some(path) => {
                let mut conn = answered(Connection::open(rt, path))?;
                answered(make_table(&mut conn))?;
                Ok(Store::File(conn))
            }
            None => {
                let mut conn = Connection::open_in_memory(alloc)?;
                answered(make_table(&mut conn))?;
                Ok(Store::Memory(conn))
            }
        }
    }

    /// Puts a row into the table.
    pub(crate) fn add(&mut self, row: &Row) -> Result<(), OutFault>
        ensures { Appends (entry_of row.now) result self.old self.new }
    {
        match self {
            Store::Closed => Err(OutFault::Failed),
            Store::File(conn) => answered(add(conn, row)),
            Store::Memory(conn) => answered(add(conn, row)),
        }
    }

    /// The rows of a player by their numbers.
    pub(crate) fn find(&mut self, alloc: Global, player: &str) -> Result<Vec<Row>, OutFault>
        ensures { Finds player.now result self.old self.new }
    {
        match self {
            Store::Closed => Err(OutFault::Failed),
            Store::File(conn) => answered(find(alloc, conn, player)),
            Store::Memory(conn) => answered(find(alloc, conn, player)),
        }
    }
}

/// An answer of the database as one of the keeper.
fn answered<T>(answer: Result<T, Error>) -> Result<T, OutFault>
    ensures { result ≡ told answer }
{
    match answer {
        Ok(found) => Ok(found),
        Err(error) => Err(fault_of(error)),
    }
}
