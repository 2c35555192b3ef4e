// The two ends of a connection, from a stream of the network or from the standard streams.
ghost use Rattle.std.specs.Prelude.{◌≡◌};
ghost use Rattle.std.specs.Io.{ReadsAtMost, WritesAtMost};
ghost use Rattle.std.specs.Io.KnownBytes.{Keeps, ReadConsumes, WriteAppends};
ghost use Rattle.pg_tcp.specs.Ends.{of_input, of_output};

use std::io;
use std::io::{Read, Write};

/// What a connection reads from.
#[derive(Drop)]
pub enum Input<S, I> {
    /// A stream of the network.
    Stream(S),
    /// A reader, as standard input.
    Standard(I),
}

/// What a connection writes to.
#[derive(Drop)]
pub enum Output<S, O> {
    /// A stream of the network.
    Stream(S),
    /// A writer, as standard output.
    Standard(O),
}

impl<S: Read, I: Read> Read for Input<S, I> {
    ghost remaining = { of_input S.remaining I.remaining };

    fn read(&mut self, into: &mut [u8]) -> io::Result<usize>
        ensures bound { ReadsAtMost result into.new }
        ensures bytes { ReadConsumes (of_input S.remaining I.remaining self.old)
            (of_input S.remaining I.remaining self.new) result into.new }
    {
        match self {
            Input::Stream(stream) => stream.read(into),
            Input::Standard(input) => input.read(into),
        }
    }
}

impl<S: Write, O: Write> Write for Output<S, O> {
    ghost contents = { of_output S.contents O.contents };

    fn write(&mut self, piece: &[u8]) -> io::Result<usize>
        ensures bound { WritesAtMost result piece.now }
        ensures bytes { WriteAppends (of_output S.contents O.contents self.old)
            (of_output S.contents O.contents self.new) result piece.now }
    {
        match self {
            Output::Stream(stream) => stream.write(piece),
            Output::Standard(output) => output.write(piece),
        }
    }

    fn flush(&mut self) -> io::Result<()>
        ensures bytes { Keeps (of_output S.contents O.contents self.old)
            (of_output S.contents O.contents self.new) }
    {
        match self {
            Output::Stream(stream) => stream.flush(),
            Output::Standard(output) => output.flush(),
        }
    }
}
