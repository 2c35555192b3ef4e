// What the class machine asks of a store.
ghost use Rattle.std.specs.Prelude.{◌≡◌, List, ℕ, Option, IfOk, map};
ghost use Rattle.pg_base.specs.Outside.{Asks, HasCause};
ghost use Rattle.pg_keep.specs.Rows.{Entry, IsShort, entry_of};
ghost use Rattle.pg_keep.specs.Keeping.{AppendsRow, GivesRows, name_of};

use crate::row::Row;
use pg_base::OutFault;
use std::alloc::Global;

/// The rows of a class, in the order in which they came. Its faults are counted, and the count never falls.
pub trait Keeper {
    /// The rows, where the keeper tells them.
    ghost rows: { Self → Option (List Entry) };

    /// The names with which it was started, in order; `None` for no name.
    ghost asked: { Self → List (Option (List ℕ)) };

    /// How often a call failed.
    ghost faults: { Self → ℕ };

    /// Opens the store of this name, or one without a name. It leaves the rows as they are. After
    /// `OutOfMemory` the name isn't among those that were asked for.
    fn start(&mut self, alloc: Global, name: Option<&str>) -> Result<(), OutFault>
        ensures asked { Asks (asked self.old) (asked self.new) result (name_of name.entry) }
        ensures rows { rows self.new ≡ rows self.old }
        ensures cause { HasCause (faults self.old) (faults self.new) result };

    /// The rows of a player in the order of their numbers, those of one number as they stand.
    fn rows_of(&mut self, alloc: Global, player: &str) -> Result<Vec<Row>, OutFault>
        ensures gives { IfOk result (λ found.
            GivesRows (rows self.old) player.now (map entry_of found.items)) }
        ensures rows { rows self.new ≡ rows self.old }
        ensures asked { asked self.new ≡ asked self.old }
        ensures cause { HasCause (faults self.old) (faults self.new) result };

    /// Puts a row last, whose player and world have at most 32 bytes each and whose script has at
    /// most 16,384. After `Failed` it stands there or not, after `OutOfMemory` it doesn't.
    fn append(&mut self, alloc: Global, row: &Row) -> Result<(), OutFault>
        requires { IsShort (entry_of row.now) }
        ensures rows { AppendsRow (rows self.old) (rows self.new) result (entry_of row.now) }
        ensures asked { asked self.new ≡ asked self.old }
        ensures cause { HasCause (faults self.old) (faults self.new) result };
}
