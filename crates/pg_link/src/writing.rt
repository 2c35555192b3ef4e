// Writing to a link.
ghost use Rattle.std.specs.Prelude.{◌≡◌, OnOk, OnErr};
ghost use Rattle.std.specs.Io.KnownBytes.{Appends};
ghost use Rattle.pg_base.specs.Outside.{HasCause};
ghost use Rattle.pg_messages.specs.Links.{WrotePart};

use pg_base::{Link, OutFault};

/// Writes all of a text. After a refusal a proper prefix of it was written. What is left to read, and the count of the reads, stay.
pub fn write_all<L: Link>(out: &mut L, text: &[u8]) -> Result<(), OutFault>
    ensures ok { OnOk result (Appends (L.written out.old) (L.written out.new) text.now) }
    ensures err { OnErr result (WrotePart (L.written out.old) (L.written out.new) text.now) }
    ensures cause { HasCause (L.write_faults out.old) (L.write_faults out.new) result }
    ensures left { L.left out.new ≡ L.left out.old }
    ensures reads { L.read_faults out.new ≡ L.read_faults out.old }
{
    let mut at = 0;
    while at < text.len() {
        let (_, rest) = text.split_at(at);
        let count = out.write(rest)?;
        at += count;
    }
    Ok(())
}
