// Readers and writers of std as a connection, a sink and a door. What they hold is told as far as
// std tells it, which is nothing for the streams of the system. Each failure is counted.
ghost use Rattle.std.specs.Prelude.{◌≡◌, ◌<◌, None, Some, Ok, [], length};
ghost use Rattle.pg_base.specs.Outside.{Asks, HasCause, KeepsRest, Reads, Writes, no_counts};
ghost use Rattle.pg_base.specs.Calls.{CountsFailures, FailsWhere};
ghost use Rattle.pg_base.specs.Standard.{IsPort, counts_of};

use crate::outside::{Counts, Door, Link, OutFault, Place, Sink, Source};
use crate::schedule::failure;
use std::alloc::Global;
use std::io::{Read, Write};

// How many bytes a pipe reads at once.
const CHUNK: usize = 4096;

/// A reader and a writer as one connection.
#[derive(Drop)]
pub struct Pipe<R, W> {
    input: R,
    output: W,
    read_faults: u64,
    write_faults: u64,
}

impl<R: Read, W: Write> Pipe<R, W> {
    /// A connection that reads from `input` and writes to `output`. No call failed yet.
    pub fn new(input: R, output: W) -> Self
        ensures { result ≡ record {
          input = input;
          output = output;
          read_faults = 0;
          write_faults = 0;
        } }
    {
        Pipe {
            input,
            output,
            read_faults: 0,
            write_faults: 0,
        }
    }

    /// How many reads failed. At its type's end the count stays there.
    pub fn read_faults(&self) -> u64
        ensures { result ≡ self.now.read_faults }
    {
        self.read_faults
    }

    /// How many writes failed. At its type's end the count stays there.
    pub fn write_faults(&self) -> u64
        ensures { result ≡ self.now.write_faults }
    {
        self.write_faults
    }
}

impl<R: Read, W: Write> Source for Pipe<R, W> {
    ghost left = { λ p. R.remaining p.input };

    ghost read_faults = { λ p. p.read_faults };

    ghost read_leaves = { λ old new.
        (new.output ≡ old.output) × (new.write_faults ≡ old.write_faults) };

    /// After an error a reader may have written to its slice, so it gets one of its own.
    fn read(&mut self, into: &mut [u8]) -> Result<usize, OutFault>
        requires { 0 < length into.old }
        ensures bytes { Reads (R.remaining self.old.input) (R.remaining self.new.input)
            result into.new }
        ensures rest { KeepsRest into.old into.new result }
        ensures cause { HasCause self.old.read_faults self.new.read_faults result }
        ensures leaves { (self.new.output ≡ self.old.output)
            × (self.new.write_faults ≡ self.old.write_faults) }
        ensures counts { CountsFailures self.old.read_faults self.new.read_faults result }
    {
        let mut chunk = [0u8; CHUNK];
        let room = into.len().min(CHUNK);
        match self.input.read(&mut chunk[..room]) {
            Ok(count) => {
                into[..count].copy_from_slice(&chunk[..count]);
                Ok(count)
            }
            Err(_) => Err(failure(&mut self.read_faults)),
        }
    }
}

impl<R: Read, W: Write> Sink for Pipe<R, W> {
    ghost written = { λ p. W.contents p.output };

    ghost write_faults = { λ p. p.write_faults };

    ghost write_leaves = { λ old new.
        (new.input ≡ old.input) × (new.read_faults ≡ old.read_faults) };

    fn write(&mut self, piece: &[u8]) -> Result<usize, OutFault>
        requires { 0 < length piece.now }
        ensures bytes { Writes (W.contents self.old.output) (W.contents self.new.output)
            result piece.now }
        ensures cause { HasCause self.old.write_faults self.new.write_faults result }
        ensures leaves { (self.new.input ≡ self.old.input)
            × (self.new.read_faults ≡ self.old.read_faults) }
        ensures counts { CountsFailures self.old.write_faults self.new.write_faults result }
    {
        match self.output.write(piece) {
            Ok(0) | Err(_) => Err(failure(&mut self.write_faults)),
            Ok(count) => Ok(count),
        }
    }
}

impl<R: Read, W: Write> Link for Pipe<R, W> {
    ghost reads_apart = { λ old new same. (Prim.cc, same.1) };

    ghost writes_apart = { λ old new same. (Prim.cc, same.1) };
}

/// A writer as a sink.
#[derive(Drop)]
pub struct Writing<W> {
    output: W,
    faults: u64,
}

impl<W: Write> Writing<W> {
    /// A sink that writes to `output`. No write failed yet.
    pub fn new(output: W) -> Self
        ensures { result ≡ record { output = output; faults = 0 } }
    {
        Writing { output, faults: 0 }
    }

    /// How many writes failed. At its type's end the count stays there.
    pub fn faults(&self) -> u64
        ensures { result ≡ self.now.faults }
    {
        self.faults
    }
}

impl<W: Write> Sink for Writing<W> {
    ghost written = { λ s. W.contents s.output };

    ghost write_faults = { λ s. s.faults };

    fn write(&mut self, piece: &[u8]) -> Result<usize, OutFault>
        requires { 0 < length piece.now }
        ensures bytes { Writes (W.contents self.old.output) (W.contents self.new.output)
            result piece.now }
        ensures cause { HasCause self.old.faults self.new.faults result }
        ensures leaves { Unit {0} }
        ensures counts { CountsFailures self.old.faults self.new.faults result }
    {
        match self.output.write(piece) {
            Ok(0) | Err(_) => Err(failure(&mut self.faults)),
            Ok(count) => Ok(count),
        }
    }
}

/// The door of standard input and output, with one connection.
#[derive(Drop)]
pub struct StandardDoor<R, W> {
    pipe: Option<Pipe<R, W>>,
    places: Vec<Place>,
    faults: u64,
    given: Counts,
    ended: Counts,
}

impl<R: Read, W: Write> StandardDoor<R, W> {
    /// A door whose one connection is this one. No place was asked for yet, and no call failed.
    pub fn new(alloc: Global, pipe: Pipe<R, W>) -> Self
        ensures pipe { result.pipe ≡ Some pipe }
        ensures places { result.places.items ≡ [] }
        ensures faults { result.faults ≡ 0 }
        ensures counts { (result.given ≡ no_counts) × (result.ended ≡ no_counts) }
    {
        StandardDoor {
            pipe: Some(pipe),
            places: Vec::new(alloc),
            faults: 0,
            given: Counts::new(),
            ended: Counts::new(),
        }
    }

    /// The places that were asked for, in order.
    pub fn places(&self) -> &[Place]
        ensures { result.now ≡ self.now.places.items }
    {
        &self.places
    }

    /// How many calls of `start` failed. At its type's end the count stays there.
    pub fn faults(&self) -> u64
        ensures { result ≡ self.now.faults }
    {
        self.faults
    }
}

impl<R: Read + Drop, W: Write + Drop> Door for StandardDoor<R, W> {
    type Conn = Pipe<R, W>;

    ghost coming = { λ _. None };

    ghost finished = { λ _. None };

    ghost given = { λ d. d.given };

    ghost ended = { λ d. d.ended };

    ghost places = { λ d. d.places.items };

    ghost faults = { λ d. d.faults };

    ghost may_finish = { λ _. Unit {0} };

    /// A port is no place of this door.
    fn start(&mut self, place: Place) -> Result<(), OutFault>
        ensures places { Asks self.old.places.items self.new.places.items result place }
        ensures counts { (self.new.given ≡ self.old.given) × (self.new.ended ≡ self.old.ended) }
        ensures cause { HasCause self.old.faults self.new.faults result }
        ensures pipe { self.new.pipe ≡ self.old.pipe }
        ensures fails { FailsWhere (IsPort place) result }
        ensures failures { CountsFailures self.old.faults self.new.faults result }
    {
        self.places.push(place)?;
        match place {
            Place::Standard => Ok(()),
            Place::Port(_) => Err(failure(&mut self.faults)),
        }
    }

    fn next(&mut self) -> Result<Option<Pipe<R, W>>, OutFault>
        ensures gives { result ≡ Ok self.old.pipe }
        ensures taken { self.new.pipe ≡ None }
        ensures given { self.new.given ≡ counts_of self.old.given self.old.pipe }
        ensures ended { self.new.ended ≡ self.old.ended }
        ensures places { self.new.places ≡ self.old.places }
        ensures faults { self.new.faults ≡ self.old.faults }
    {
        let pipe = self.pipe.take();
        if let Some(pipe) = &pipe {
            self.given = self.given.next(pipe.read_faults, pipe.write_faults);
        }
        Ok(pipe)
    }

    fn finish(&mut self, conn: Pipe<R, W>) {
        self.ended = self.ended.next(conn.read_faults, conn.write_faults);
    }
}
