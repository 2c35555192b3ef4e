// The keeper over SQL. It tells nothing of its rows, and counts its failures.
ghost use Rattle.std.specs.Prelude.{◌≡◌, [], None, IfOk, OnOk, OnErr};
ghost use Rattle.pg_base.specs.Outside.{Asks, HasCause};
ghost use Rattle.pg_base.specs.Calls.{CountsFailures};
ghost use Rattle.pg_keep.specs.Rows.{IsShort, entry_of};
ghost use Rattle.pg_keep.specs.Keeping.{kept_name, name_of};
ghost use Rattle.pg_keep_sql.specs.declared.store.Store.TheVariants.{Closed};
ghost use Rattle.pg_keep_sql.specs.Store.{Appends, Finds, StandsFor, kept_names};

use crate::store::Store;
use pg_base::OutFault;
use pg_keep::{Keeper, Row};
use std::alloc::{AllocError, Global};

/// Rows in a file of the runtime `R`, or in memory.
#[derive(Drop)]
pub struct SqlKeeper<R> {
    rt: R,
    store: Store,
    asked: Vec<Option<String>>,
    faults: u64,
}

impl<R> SqlKeeper<R> {
    /// A keeper that wasn't started: until it is, each call is a counted fault.
    pub fn new(alloc: Global, rt: R) -> SqlKeeper<R>
        ensures store { result.store ≡ Closed }
        ensures asked { result.asked.items ≡ [] }
        ensures faults { result.faults ≡ 0 }
    {
        SqlKeeper {
            rt,
            store: Store::Closed,
            asked: Vec::new(alloc),
            faults: 0,
        }
    }

    /// How many calls failed. At its type's end the count stays there.
    pub fn faults(&self) -> u64
        ensures { result ≡ self.now.faults }
    {
        self.faults
    }
}

impl Keeper for SqlKeeper<HostRuntime> {
    ghost rows = { λ _. None };

    ghost asked = { λ k. kept_names k.asked.items };

    ghost faults = { λ k. k.faults };

    /// The place in the list is taken before the store is opened, so that it isn't the name that
    /// wants memory. Where the store isn't opened, the one before stays.
    fn start(&mut self, alloc: Global, name: Option<&str>) -> Result<(), OutFault>
        ensures opens { OnOk result (StandsFor (name_of name.entry) self.new.store) }
        ensures leaves { OnErr result (self.new.store ≡ self.old.store) }
        ensures asked { Asks (kept_names self.old.asked.items) (kept_names self.new.asked.items)
            result (name_of name.entry) }
        ensures cause { HasCause self.old.faults self.new.faults result }
        ensures faults { CountsFailures self.old.faults self.new.faults result }
    {
        let asked = kept(alloc, name)?;
        self.asked.reserve(1)?;
        match counted(&mut self.faults, Store::open(alloc, &self.rt, name)) {
            Ok(store) => {
                self.asked.push(asked)?;
                self.store = store;
                Ok(())
            }
            Err(OutFault::Failed) => {
                self.asked.push(asked)?;
                Err(OutFault::Failed)
            }
            Err(OutFault::OutOfMemory) => Err(OutFault::OutOfMemory),
        }
    }

    fn rows_of(&mut self, alloc: Global, player: &str) -> Result<Vec<Row>, OutFault>
        ensures found { Finds player.now result self.old.store self.new.store }
        ensures asked { self.new.asked ≡ self.old.asked }
        ensures cause { HasCause self.old.faults self.new.faults result }
        ensures faults { CountsFailures self.old.faults self.new.faults result }
    {
        let found = self.store.find(alloc, player);
        counted(&mut self.faults, found)
    }

    fn append(&mut self, _alloc: Global, row: &Row) -> Result<(), OutFault>
        requires { IsShort (entry_of row.now) }
        ensures appends { Appends (entry_of row.now) result self.old.store self.new.store }
        ensures asked { self.new.asked ≡ self.old.asked }
        ensures cause { HasCause self.old.faults self.new.faults result }
        ensures faults { CountsFailures self.old.faults self.new.faults result }
    {
        let added = self.store.add(row);
        counted(&mut self.faults, added)
    }
}

/// Counts a failure, and no other answer.
fn counted<T>(faults: &mut u64, answer: Result<T, OutFault>) -> Result<T, OutFault>
    ensures same { result ≡ answer }
    ensures cause { HasCause faults.old faults.new result }
    ensures counts { CountsFailures faults.old faults.new result }
{
    if let Err(OutFault::Failed) = answer {
        *faults = faults.saturating_add(1);
    }
    answer
}

/// The name of a store, to be kept in a list.
fn kept(alloc: Global, name: Option<&str>) -> Result<Option<String>, AllocError>
    ensures { IfOk result (λ kept. kept_name kept ≡ name_of name.entry) }
{
    match name {
        Some(name) => Ok(Some(String::from_str(alloc, name)?)),
        None => Ok(None),
    }
}
