// One submission of a player.
ghost use Rattle.std.specs.Prelude.{◌≡◌, IfOk};
ghost use Rattle.pg_keep.specs.Rows.{entry_of};

use std::alloc::{AllocError, Global};

/// A submission that is kept.
#[derive(Debug, Drop, PartialEq)]
pub struct Row {
    /// Whose it is: a player of the roster.
    pub player: String,
    /// Its number among that player's submissions, from 1 on.
    pub no: u32,
    /// The name of the level's world.
    pub world: String,
    /// The level's number in its world.
    pub level: u16,
    /// The script that was sent in.
    pub script: String,
    /// Whether the script closed the level.
    pub closed: bool,
}

impl Row {
    /// The same row once more. Its one error is want of memory.
    pub fn copied(&self, alloc: Global) -> Result<Row, AllocError>
        ensures { IfOk result (λ row. entry_of row ≡ entry_of self.now) }
    {
        Ok(Row {
            player: String::from_str(alloc, &self.player)?,
            no: self.no,
            world: String::from_str(alloc, &self.world)?,
            level: self.level,
            script: String::from_str(alloc, &self.script)?,
            closed: self.closed,
        })
    }
}
