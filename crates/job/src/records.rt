// Records: a cell as four bytes, two for the column and two for the row, the low byte in front.
ghost use Rattle.std.specs.Prelude.{◌≡◌, IfOk, MatchResult};
ghost use Rattle.job.specs.Records.{records, code_of_record, Sized, RecordsRefused, records_numbered};

use board::cell::Cell;
use board::refusal::{Numbered, Refusal};
use std::alloc::{AllocError, Global};

// The bytes of one record.
pub const RECORD: usize = 4;

// The most bytes that a film may have.
pub const MOST_BYTES: usize = 4096;

// Why the bytes are no records.
#[derive(Clone, Copy, PartialEq, Eq, Debug)]
pub enum RecordsFault {
    TooManyBytes,
    NotWhole,
}

impl Refusal for RecordsFault {
    ghost numbered = { λ f. records_numbered f };

    fn numbered(&self) -> Numbered {
        Numbered::at(10, 0)
    }
}

// Accepts at most 4,096 bytes that are whole records.
pub fn check_records(bytes: &[u8]) -> Result<(), RecordsFault>
    ensures sized_or_refused { MatchResult result (λ _. Sized bytes.now) (λ f. RecordsRefused bytes.now (records_numbered f)) }
{
    if bytes.len() > MOST_BYTES {
        return Err(RecordsFault::TooManyBytes);
    }
    if bytes.len() % RECORD != 0 {
        return Err(RecordsFault::NotWhole);
    }
    Ok(())
}

// The code of the cell that a record has.
fn code_of(bytes: &[u8; RECORD]) -> u32
    ensures { result ≡ code_of_record bytes.now }
{
    let [x_low, x_high, y_low, y_high] = *bytes;
    let cell = Cell {
        x: u16::from_le_bytes([x_low, x_high]),
        y: u16::from_le_bytes([y_low, y_high]),
    };
    cell.code()
}

// The codes of the whole records, in their order; bytes behind the last whole record are passed over.
pub fn codes_of(heap: Global, bytes: &[u8]) -> Result<Vec<u32>, AllocError>
    ensures codes_of_the_records { IfOk result (λ v. v.items ≡ records bytes.now) }
{
    let (whole, _) = bytes.as_chunks::<RECORD>();
    whole.iter().map(code_of).collect(heap)
}
