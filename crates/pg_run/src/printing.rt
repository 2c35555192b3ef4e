// Printing the lines of a run.
ghost use Rattle.std.specs.Prelude.{OnOk, OnErr};
ghost use Rattle.std.specs.Io.KnownBytes.{Appends};
ghost use Rattle.pg_base.specs.Outside.{HasCause, Rose};
ghost use Rattle.pg_run.specs.Print.{WrotePart, Printed};

use pg_base::{OutFault, Sink};

/// Writes the lines of a status and gives the status: this one, 5 where a write failed, and 4 where it found no memory.
pub fn print<O: Sink>(out: &mut O, lines: &[u8], status: u8) -> u8
    ensures { Printed lines.now status result (O.written out.old) (O.written out.new)
        (Rose (O.write_faults out.old) (O.write_faults out.new)) }
{
    match write_all(out, lines) {
        Ok(()) => status,
        Err(OutFault::Failed) => 5,
        Err(OutFault::OutOfMemory) => 4,
    }
}

/// Writes all of a text. After a refusal a proper prefix was written.
fn write_all<O: Sink>(out: &mut O, text: &[u8]) -> Result<(), OutFault>
    ensures ok { OnOk result (Appends (O.written out.old) (O.written out.new) text.now) }
    ensures err { OnErr result (WrotePart (O.written out.old) (O.written out.new) text.now) }
    ensures cause { HasCause (O.write_faults out.old) (O.write_faults out.new) result }
{
    let mut at = 0;
    while at < text.len() {
        let (_, rest) = text.split_at(at);
        let count = out.write(rest)?;
        at += count;
    }
    Ok(())
}
