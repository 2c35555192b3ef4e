// A door at the place that it is started with. What comes through it isn't told. Each failure is counted.
ghost use Rattle.std.specs.Prelude.{◌≡◌, ◌≢◌, ◌≤◌, None, Some, Err, [], IfOk, MatchResult};
ghost use Rattle.pg_base.specs.declared.outside.OutFault.TheVariants.{Failed, OutOfMemory};
ghost use Rattle.pg_base.specs.Outside.{Asks, HasCause, no_counts, next_counts};
ghost use Rattle.pg_base.specs.Calls.{CountsFailures, next_number};
ghost use Rattle.pg_base.specs.Standard.{counts_of};
ghost use Rattle.pg_tcp.specs.declared.door.Waits.TheVariants.{Nowhere};
ghost use Rattle.pg_tcp.specs.Waiting.{GivesAt, StartsAt, left_at};

use crate::ends::{Input, Output};
use pg_base::{Counts, Door, OutFault, Pipe, Place};
use std::alloc::Global;
use std::io;
use std::io::{Read, Write};
use std::net::{Ipv4Addr, Net, OpenListener, OpenStream, TcpListener};

/// Where a door waits, with what it waits on.
#[derive(Drop)]
enum Waits<L> {
    Nowhere,
    AtStreams,
    AtPort(L),
}

/// The door of this machine, over the network `net` and the standard streams. At these it has one
/// connection. At a port its connections come one after the other, and never end.
#[derive(Drop)]
pub struct HostDoor<N: Net, I, O> {
    net: N,
    waits: Waits<N::Listener>,
    standard: Option<Pipe<Input<N::Stream, I>, Output<N::Stream, O>>>,
    places: Vec<Place>,
    faults: u64,
    given: Counts,
    ended: Counts,
}

impl<N: Net, I: Read, O: Write> HostDoor<N, I, O> {
    /// A door with these standard streams, that waits nowhere yet. No call failed.
    pub fn new(alloc: Global, net: N, input: I, output: O) -> Self
        ensures waits { result.waits ≡ Nowhere }
        ensures standard { result.standard ≡ Some (record {
          input = Input.Standard input;
          output = Output.Standard output;
          read_faults = 0;
          write_faults = 0;
        }) }
        ensures places { result.places.items ≡ [] }
        ensures faults { result.faults ≡ 0 }
        ensures counts { (result.given ≡ no_counts) × (result.ended ≡ no_counts) }
    {
        HostDoor {
            net,
            waits: Waits::Nowhere,
            standard: Some(Pipe::new(Input::Standard(input), Output::Standard(output))),
            places: Vec::new(alloc),
            faults: 0,
            given: Counts::new(),
            ended: Counts::new(),
        }
    }

    /// The places that were asked for, in order.
    pub fn places(&self) -> &[Place]
        ensures { result.now ≡ self.now.places.items }
    {
        &self.places
    }

    /// How many calls of `start` and `next` failed. At its type's end the count stays there.
    pub fn faults(&self) -> u64
        ensures { result ≡ self.now.faults }
    {
        self.faults
    }
}

impl<N: Net, I: Read + Drop, O: Write + Drop> Door for HostDoor<N, I, O> {
    type Conn = Pipe<Input<N::Stream, I>, Output<N::Stream, O>>;

    ghost coming = { λ _. None };

    ghost finished = { λ _. None };

    ghost given = { λ d. d.given };

    ghost ended = { λ d. d.ended };

    ghost places = { λ d. d.places.items };

    ghost faults = { λ d. d.faults };

    ghost may_finish = { λ _. Unit {0} };

    fn start(&mut self, place: Place) -> Result<(), OutFault>
        ensures places { Asks self.old.places.items self.new.places.items result place }
        ensures waits { StartsAt self.old.waits self.new.waits result place }
        ensures standard { self.new.standard ≡ self.old.standard }
        ensures counts { (self.new.given ≡ self.old.given) × (self.new.ended ≡ self.old.ended) }
        ensures cause { HasCause self.old.faults self.new.faults result }
        ensures failures { CountsFailures self.old.faults self.new.faults result }
        ensures streams { place ≡ Place.Standard → result ≢ Err Failed }
    {
        self.places.push(place)?;
        match place {
            Place::Standard => self.waits = Waits::AtStreams,
            Place::Port(port) => match TcpListener::bind(&self.net, (Ipv4Addr::LOCALHOST, port)) {
                Ok(listener) => self.waits = Waits::AtPort(listener),
                Err(_) => return Err(failure(&mut self.faults)),
            },
        }
        Ok(())
    }

    /// At a port it waits until somebody connects.
    fn next(&mut self) -> Result<Option<Pipe<Input<N::Stream, I>, Output<N::Stream, O>>>, OutFault>
        ensures gives { GivesAt self.old.waits self.old.standard result }
        ensures standard { self.new.standard ≡ left_at self.old.waits self.old.standard }
        ensures given { MatchResult result
            (λ conn. self.new.given ≡ counts_of self.old.given conn)
            (λ _. self.new.given ≡ self.old.given) }
        ensures waits { self.new.waits ≡ self.old.waits }
        ensures ended { self.new.ended ≡ self.old.ended }
        ensures places { self.new.places ≡ self.old.places }
        ensures cause { HasCause self.old.faults self.new.faults result }
        ensures failures { CountsFailures self.old.faults self.new.faults result }
        ensures memory { result ≢ Err OutOfMemory }
    {
        let conn = match &self.waits {
            Waits::Nowhere => None,
            Waits::AtStreams => self.standard.take(),
            Waits::AtPort(listener) => match accepted::<N, I, O>(listener) {
                Ok(pipe) => Some(pipe),
                Err(_) => return Err(failure(&mut self.faults)),
            },
        };
        if let Some(pipe) = &conn {
            self.given = self.given.next(pipe.read_faults(), pipe.write_faults());
        }
        Ok(conn)
    }

    fn finish(&mut self, conn: Pipe<Input<N::Stream, I>, Output<N::Stream, O>>)
        ensures ended { self.new.ended
            ≡ next_counts self.old.ended conn.read_faults conn.write_faults }
        ensures given { self.new.given ≡ self.old.given }
        ensures waits { self.new.waits ≡ self.old.waits }
        ensures standard { self.new.standard ≡ self.old.standard }
        ensures places { self.new.places ≡ self.old.places }
        ensures faults { self.new.faults ≡ self.old.faults }
    {
        self.ended = self.ended.next(conn.read_faults(), conn.write_faults());
    }
}

/// The next connection at a port. One handle of its stream reads, and another writes.
fn accepted<N: Net, I: Read, O: Write>(
    listener: &N::Listener,
) -> io::Result<Pipe<Input<N::Stream, I>, Output<N::Stream, O>>>
    ensures { IfOk result (λ pipe. (pipe.read_faults ≡ 0) × (pipe.write_faults ≡ 0)) }
{
    let (stream, _) = listener.accept()?;
    let reading = stream.try_clone()?;
    Ok(Pipe::new(Input::Stream(reading), Output::Stream(stream)))
}

/// Counts a failure, and gives it. A count at its type's end stays there.
fn failure(faults: &mut u64) -> OutFault
    ensures fault { result ≡ Failed }
    ensures counted { faults.new ≡ next_number faults.old }
    ensures later { faults.old ≤ faults.new }
{
    *faults = faults.saturating_add(1);
    OutFault::Failed
}
