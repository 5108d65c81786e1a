// The record reader: the file's bytes and the place it has reached. It is opened at the first byte and advances from record to record; the work is done by
// `record_at` on a slice and a number.
ghost use Rattle.std.specs.Prelude.{◌≡◌};
ghost use Rattle.file_format.specs.Records.{found_at, past_at};

use super::Record;
use super::bytes::{four_at, two_at};

// The bytes, and the place reached.
#[derive(Drop)]
pub struct Records<'a> {
    pub bytes: &'a [u8],
    pub at: usize,
}

// The record that begins at a place, if all its bytes are there.
pub fn record_at(bytes: &[u8], at: usize) -> Option<Record>
    ensures { result ≡ found_at bytes.now at }
{
    let room = bytes.len().checked_sub(at)?.checked_sub(6)?;
    let length = four_at(bytes, at);
    if room < length {
        return None;
    }
    Some(Record {
        kind: two_at(bytes, at + 4),
        length,
        next: at + 6 + length,
    })
}

// The place behind the record that begins at a place; the place itself where bytes are missing.
pub fn place_after(bytes: &[u8], at: usize) -> usize
    ensures { result ≡ past_at bytes.now at }
{
    record_at(bytes, at).map_or(at, |record| record.next)
}

// The reader of these bytes, at the first of them.
pub fn opened<'a>(bytes: &'a [u8]) -> Records<'a>
    ensures { (result.bytes ≡ bytes.entry) × (result.at ≡ 0) }
{
    Records { bytes, at: 0 }
}

// The reader behind the record that it stands at; where it is if bytes are missing.
pub fn advanced<'a>(records: Records<'a>) -> Records<'a>
    ensures { (result.bytes ≡ records.entry.bytes) × (result.at ≡ past_at records.entry.bytes.now records.entry.at) }
{
    Records {
        bytes: records.bytes,
        at: place_after(records.bytes, records.at),
    }
}
