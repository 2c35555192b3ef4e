// Reading from a link into a buffer.
ghost use Rattle.std.specs.Prelude.{◌≡◌, ◌≤◌, ◌<◌, vec_len};
ghost use Rattle.pg_base.specs.Outside.{Rose};
ghost use Rattle.pg_link.specs.Filling.{Fills};

use pg_base::Link;

/// How many bytes a message has at most: 16,384 of a head and 65,536 of a body.
const MESSAGE_BYTES: usize = 81_920;

/// How filling a buffer ended.
#[derive(Clone, Copy, Debug)]
pub enum Filled {
    /// The buffer has as many bytes as were wanted, or more.
    Enough,
    /// The link has no more bytes.
    End,
    /// A read failed.
    ReadFault,
    /// The memory wasn't there. A piece that was read may be lost.
    OutOfMemory,
}

/// Reads from the link, behind what the buffer holds, until it holds `wanted` bytes. It never holds more than one message has at most. What
/// was written, and the count of the writes, stay.
pub fn fill<L: Link>(link: &mut L, buffer: &mut Vec<u8>, wanted: usize) -> Filled
    requires most { wanted ≤ 81_920 }
    requires fits { vec_len buffer.old ≤ 81_920 }
    ensures fills { Fills (L.left link.old) (L.left link.new) (Rose (L.read_faults link.old) (L.read_faults link.new))
        buffer.old.items buffer.new.items wanted result }
    ensures fits { vec_len buffer.new ≤ 81_920 }
    ensures written { L.written link.new ≡ L.written link.old }
    ensures write_faults { L.write_faults link.new ≡ L.write_faults link.old }
    ensures later { L.read_faults link.old ≤ L.read_faults link.new }
{
    while buffer.len() < wanted {
        let mut piece = [0u8; 4096];
        let room = MESSAGE_BYTES - buffer.len();
        let most = if room < 4096 { room } else { 4096 };
        let (into, _) = piece.as_mut_slice().split_at_mut(most);
        let Ok(count) = link.read(into) else {
            return Filled::ReadFault;
        };
        if count == 0 {
            return Filled::End;
        }
        let (gave, _) = piece.as_slice().split_at(count);
        let Ok(()) = buffer.extend_from_slice(gave) else {
            return Filled::OutOfMemory;
        };
    }
    Filled::Enough
}
