// A keeper in memory. It tells its rows, and its calls of the listed numbers fail.
ghost use Rattle.std.specs.Prelude.{◌≡◌, ◌≤◌, ◌++◌, ◌∷◌, [], IfOk, Some, length, map, if◌then◌else◌};
ghost use Rattle.std.specs.Result.{is_ok};
ghost use Rattle.pg_base.specs.declared.outside.OutFault.TheVariants.{Failed};
ghost use Rattle.pg_base.specs.Calls.{CountsFailures, FailsWhere, next_number};
ghost use Rattle.pg_base.specs.Outside.{Asks, HasCause};
ghost use Rattle.pg_keep.specs.Rows.{IsShort, entry_of, place_of, rows_of};
ghost use Rattle.pg_keep.specs.Keeping.{MadeCall, NextFails, fault_at, kept_name, name_of, next_fault, rows_after};

use crate::keeper::Keeper;
use crate::row::Row;
use pg_base::OutFault;
use std::alloc::{AllocError, Global};
use std::marker::Model;

/// A keeper in memory.
#[derive(Drop)]
pub struct MemoryKeeper {
    rows: Vec<Row>,
    asked: Vec<Option<String>>,
    failing: Vec<(u64, bool)>,
    made: u64,
    faults: u64,
}

impl Model for MemoryKeeper {
    ghost use Rattle.std.specs.Prelude.{map};
    ghost use Rattle.pg_keep.specs.Rows.{entry_of};
    ghost use Rattle.pg_keep.specs.Keeping.{KeeperState, kept_name};

    ghost Value = { KeeperState };

    ghost view = { λ k. record {
      rows = map entry_of k.rows.items;
      asked = map kept_name k.asked.items;
      failing = k.failing.items;
      made = k.made;
      faults = k.faults;
    } };
}

impl MemoryKeeper {
    /// A keeper of these rows. Of its calls of `start`, `rows_of` and `append`, counted together
    /// from 0, those fail whose number is in `failing`, and the flag of the first pair with that
    /// number says whether an append that fails leaves its row.
    pub fn new(alloc: Global, rows: Vec<Row>, failing: Vec<(u64, bool)>) -> MemoryKeeper
        ensures { result ≡ record {
          rows = map entry_of rows.items;
          asked = [];
          failing = failing.items;
          made = 0;
          faults = 0;
        } }
    {
        MemoryKeeper {
            rows,
            asked: Vec::new(alloc),
            failing,
            made: 0,
            faults: 0,
        }
    }

    /// The rows, in the order in which they came.
    pub fn rows(&self) -> &[Row]
        ensures { map entry_of result.now ≡ self.now.rows }
    {
        &self.rows
    }

    /// How many calls failed. At its type's end the count stays there.
    pub fn faults(&self) -> u64
        ensures { result ≡ self.now.faults }
    {
        self.faults
    }

    /// Counts a call. `Some` says that it fails, with whether it leaves its row.
    fn next_call(&mut self) -> Option<bool>
        ensures fault { result ≡ next_fault self.old }
        ensures made { MadeCall self.old self.new }
        ensures rows { self.new.rows ≡ self.old.rows }
        ensures asked { self.new.asked ≡ self.old.asked }
        ensures faults { self.new.faults ≡ self.old.faults }
    {
        let number = self.made;
        self.made = number.saturating_add(1);
        fault_of(&self.failing, number)
    }

    /// Puts a copy of the row last.
    fn keep(&mut self, alloc: Global, row: &Row) -> Result<(), AllocError>
        ensures rows { self.new.rows
            ≡ (if is_ok result then self.old.rows ++ entry_of row.now ∷ [] else self.old.rows) }
        ensures asked { self.new.asked ≡ self.old.asked }
        ensures failing { self.new.failing ≡ self.old.failing }
        ensures made { self.new.made ≡ self.old.made }
        ensures faults { self.new.faults ≡ self.old.faults }
    {
        let copy = row.copied(alloc)?;
        self.rows.push(copy)?;
        Ok(())
    }
}

/// What the list says of the call of this number.
fn fault_of(failing: &[(u64, bool)], number: u64) -> Option<bool>
    ensures { result ≡ fault_at failing.now number }
{
    for (call, leaves) in failing {
        if *call == number {
            return Some(*leaves);
        }
    }
    None
}

/// Counts a failure, and gives it. A count at its type's end stays there.
fn failure(faults: &mut u64) -> OutFault
    ensures fault { result ≡ Failed }
    ensures counted { faults.new ≡ next_number faults.old }
    ensures later { faults.old ≤ faults.new }
{
    *faults = faults.saturating_add(1);
    OutFault::Failed
}

/// The name of a store, to be kept in a list.
fn kept(alloc: Global, name: Option<&str>) -> Result<Option<String>, AllocError>
    ensures { IfOk result (λ kept. kept_name kept ≡ name_of name.entry) }
{
    match name {
        Some(name) => Ok(Some(String::from_str(alloc, name)?)),
        None => Ok(None),
    }
}

/// The rows of a player in order. They are placed from the last one on, each before those that
/// have its number or a greater one.
fn rows_of_player(alloc: Global, rows: &[Row], player: &str) -> Result<Vec<Row>, AllocError>
    ensures { IfOk result (λ found.
        map entry_of found.items ≡ rows_of player.now (map entry_of rows.now)) }
{
    let mut found = Vec::new(alloc);
    let mut left = rows.len();
    while left > 0 {
        left -= 1;
        let row = &rows[left];
        if row.player.as_str() == player {
            let place = place_for(&found, row.no);
            found.insert(place, row.copied(alloc)?)?;
        }
    }
    Ok(found)
}

/// How many of these rows stand before the first that has this number or a greater one.
fn place_for(rows: &[Row], number: u32) -> usize
    ensures place { result ≡ place_of number (map entry_of rows.now) }
    ensures within { result ≤ length rows.now }
{
    for (place, row) in rows.iter().enumerate() {
        if number <= row.no {
            return place;
        }
    }
    rows.len()
}

impl Keeper for MemoryKeeper {
    ghost rows = { λ k. Some k.rows };

    ghost asked = { λ k. k.asked };

    ghost faults = { λ k. k.faults };

    fn start(&mut self, alloc: Global, name: Option<&str>) -> Result<(), OutFault>
        ensures asked { Asks self.old.asked self.new.asked result (name_of name.entry) }
        ensures rows { self.new.rows ≡ self.old.rows }
        ensures fails { FailsWhere (NextFails self.old) result }
        ensures cause { HasCause self.old.faults self.new.faults result }
        ensures faults { CountsFailures self.old.faults self.new.faults result }
        ensures calls { MadeCall self.old self.new }
    {
        let fault = self.next_call();
        let name = kept(alloc, name)?;
        self.asked.push(name)?;
        if fault.is_some() {
            return Err(failure(&mut self.faults));
        }
        Ok(())
    }

    fn rows_of(&mut self, alloc: Global, player: &str) -> Result<Vec<Row>, OutFault>
        ensures gives { IfOk result (λ found.
            map entry_of found.items ≡ rows_of player.now self.old.rows) }
        ensures rows { self.new.rows ≡ self.old.rows }
        ensures asked { self.new.asked ≡ self.old.asked }
        ensures fails { FailsWhere (NextFails self.old) result }
        ensures cause { HasCause self.old.faults self.new.faults result }
        ensures faults { CountsFailures self.old.faults self.new.faults result }
        ensures calls { MadeCall self.old self.new }
    {
        if self.next_call().is_some() {
            return Err(failure(&mut self.faults));
        }
        let found = rows_of_player(alloc, &self.rows, player)?;
        Ok(found)
    }

    fn append(&mut self, alloc: Global, row: &Row) -> Result<(), OutFault>
        requires { IsShort (entry_of row.now) }
        ensures rows { self.new.rows
            ≡ rows_after (next_fault self.old) self.old.rows result (entry_of row.now) }
        ensures asked { self.new.asked ≡ self.old.asked }
        ensures fails { FailsWhere (NextFails self.old) result }
        ensures cause { HasCause self.old.faults self.new.faults result }
        ensures faults { CountsFailures self.old.faults self.new.faults result }
        ensures calls { MadeCall self.old self.new }
    {
        let fault = self.next_call();
        if fault != Some(false) {
            self.keep(alloc, row)?;
        }
        if fault.is_some() {
            return Err(failure(&mut self.faults));
        }
        Ok(())
    }
}
