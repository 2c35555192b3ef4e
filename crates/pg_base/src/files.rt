// The files of the system. What they hold isn't told. Each failure is counted.
ghost use Rattle.std.specs.Prelude.{◌≡◌, ◌≤◌, ◌+◌, None, [], IfOk, map, string_bytes, vec_len};
ghost use Rattle.std.specs.Io.KnownBytes.{Consumes};
ghost use Rattle.pg_base.specs.Outside.{Asks, GivesFront, HasCause};
ghost use Rattle.pg_base.specs.Calls.{CountsFailures};

use crate::outside::{Files, OutFault};
use crate::schedule::failure;
use std::alloc::Global;
use std::fs;
use std::io::Read;
use std::rt::Files as FileSystem;

/// The files of the system, read through the runtime `rt`.
#[derive(Drop)]
pub struct RealFiles<R> {
    rt: R,
    asked: Vec<String>,
    faults: u64,
}

impl<R: FileSystem> RealFiles<R> {
    /// The files of this runtime. No name was asked for yet, and no read failed.
    pub fn new(alloc: Global, rt: R) -> Self
        ensures asked { result.asked.items ≡ [] }
        ensures faults { result.faults ≡ 0 }
    {
        RealFiles {
            rt,
            asked: Vec::new(alloc),
            faults: 0,
        }
    }

    /// The names that were asked for, in order.
    pub fn asked(&self) -> &[String]
        ensures { result.now ≡ self.now.asked.items }
    {
        &self.asked
    }

    /// How many reads failed. At its type's end the count stays there.
    pub fn faults(&self) -> u64
        ensures { result ≡ self.now.faults }
    {
        self.faults
    }
}

impl<R: FileSystem> Files for RealFiles<R> {
    ghost files = { λ _. None };

    ghost asked = { λ f. map string_bytes f.asked.items };

    ghost faults = { λ f. f.faults };

    /// The place in the list is taken before the read, so that it isn't the name that wants memory.
    fn read(&mut self, alloc: Global, name: &str, limit: usize) -> Result<Vec<u8>, OutFault>
        ensures length { IfOk result (λ text. vec_len text ≤ limit + 1) }
        ensures asked { Asks (map string_bytes self.old.asked.items)
            (map string_bytes self.new.asked.items) result name.now }
        ensures cause { HasCause self.old.faults self.new.faults result }
        ensures faults { CountsFailures self.old.faults self.new.faults result }
    {
        let asked = String::from_str(alloc, name)?;
        self.asked.reserve(1)?;
        match front_of_file(alloc, &self.rt, name, limit) {
            Ok(front) => {
                self.asked.push(asked)?;
                Ok(front)
            }
            Err(OutFault::Failed) => {
                self.asked.push(asked)?;
                Err(failure(&mut self.faults))
            }
            Err(OutFault::OutOfMemory) => Err(OutFault::OutOfMemory),
        }
    }
}

/// The first `limit + 1` bytes of the file of this name.
fn front_of_file<R: FileSystem>(
    alloc: Global,
    rt: &R,
    name: &str,
    limit: usize,
) -> Result<Vec<u8>, OutFault>
    ensures { IfOk result (λ front. vec_len front ≤ limit + 1) }
{
    let Ok(mut file) = fs::open(rt, name) else {
        return Err(OutFault::Failed);
    };
    front_of(alloc, &mut file, limit)
}

const CHUNK: usize = 4096;

/// The first `limit + 1` bytes of a reader, or all where it has fewer. No more are taken from it.
fn front_of<R: Read>(alloc: Global, reader: &mut R, limit: usize) -> Result<Vec<u8>, OutFault>
    ensures front { IfOk result (λ front. GivesFront (R.remaining reader.old) limit front.items) }
    ensures length { IfOk result (λ front. vec_len front ≤ limit + 1) }
    ensures taken { IfOk result (λ front.
        Consumes (R.remaining reader.old) (R.remaining reader.new) front.items) }
{
    let mut front = Vec::new(alloc);
    let mut chunk = [0u8; CHUNK];
    while front.len() <= limit {
        let room = (limit - front.len()).min(CHUNK - 1) + 1;
        let Ok(count) = reader.read(&mut chunk[..room]) else {
            return Err(OutFault::Failed);
        };
        if count == 0 {
            break;
        }
        front.extend_from_slice(&chunk[..count])?;
    }
    Ok(front)
}
