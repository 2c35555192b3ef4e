// The records of a file, by `csv`.
ghost use Rattle.std.specs.Prelude.{◌≡◌, IfOk, map};
ghost use Rattle.csv.specs.Records.{fields_of};
ghost use Rattle.pg_roster.specs.Records.{file_records};

use csv::{ByteRecord, ReaderBuilder};
use std::alloc::{AllocError, Global};

/// Every record of a file, the header too, with any number of fields each. A slice has no faults
/// but want of memory, so each error of the reader is told as that.
pub(crate) fn all_records(alloc: Global, text: &[u8]) -> Result<Vec<ByteRecord>, AllocError>
    ensures { IfOk result (λ rows. map fields_of rows.items ≡ file_records text.now) }
{
    let rdr = ReaderBuilder::new()
        .has_headers(false)
        .flexible(true)
        .from_reader(alloc, text);
    let mut rows = Vec::new(alloc);
    for row in rdr.into_byte_records() {
        match row {
            Ok(row) => rows.push(row)?,
            Err(_) => return Err(AllocError),
        }
    }
    Ok(rows)
}
