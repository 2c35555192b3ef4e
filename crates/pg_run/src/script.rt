// The script of a run, from the door's first connection.
ghost use Rattle.std.specs.Prelude.{◌≡◌, IfOk, Err};
ghost use Rattle.pg_base.specs.declared.outside.OutFault.TheVariants.{Failed};
ghost use Rattle.pg_base.specs.Outside.{HasCause};
ghost use Rattle.pg_run.specs.Script.{TookFront, DoorGave};
ghost use Rattle.pg_run.specs.Asked.{told_door, DoorFailed, LeavesBehind, LeavesPart, UsesDoor};

use pg_base::{Door, Link, OutFault, Place, Sink, Source};
use std::alloc::{AllocError, Global};

/// How many bytes a script may have.
const SCRIPT_LIMIT: usize = 16_384;

/// Starts the door at standard input and output, and reads the bytes of its first connection, none where it gives no
/// connection, and no more than a script's limit and one byte. `Failed` comes only where the count of the door rose, or
/// that of the connection's reads. The connection is finished in each case.
pub fn script_at<D: Door>(alloc: Global, door: &mut D) -> Result<Vec<u8>, OutFault>
    ensures script { IfOk result (λ script. DoorGave (D.coming door.old) script.items) }
    ensures uses { let tells = told_door D.coming D.finished D.places D.given D.ended D.faults in
        UsesDoor (tells door.old) (tells door.new) result }
    ensures failed { let tells = told_door D.coming D.finished D.places D.given D.ended D.faults in
        result ≡ Err Failed → DoorFailed (tells door.old) (tells door.new) }
{
    door.start(Place::Standard)?;
    let Some(mut conn) = door.next()? else {
        return Ok(Vec::new(alloc));
    };
    let script = read_script(alloc, &mut conn);
    door.finish(conn);
    script
}

/// Reads a link to its end, but no more than a script's limit and one byte, and writes nothing.
fn read_script<L: Link>(alloc: Global, link: &mut L) -> Result<Vec<u8>, OutFault>
    ensures script { IfOk result (λ script. TookFront (L.left link.old) script.items) }
    ensures left { IfOk result (λ _. LeavesBehind (L.left link.old) (L.left link.new)) }
    ensures part { LeavesPart (L.left link.old) (L.left link.new) }
    ensures written { L.written link.new ≡ L.written link.old }
    ensures writes { L.write_faults link.new ≡ L.write_faults link.old }
    ensures cause { HasCause (L.read_faults link.old) (L.read_faults link.new) result }
{
    let mut script = Vec::new(alloc);
    let mut chunk = [0u8; 4096];
    while script.len() <= SCRIPT_LIMIT {
        let want = chunk.len().min(SCRIPT_LIMIT + 1 - script.len());
        let count = link.read(&mut chunk[..want])?;
        if count == 0 {
            return Ok(script);
        }
        script.extend_from_slice(&chunk[..count])?;
    }
    Ok(script)
}
