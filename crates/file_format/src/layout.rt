// The layout of a file, judged record by record: reason 17.
ghost use Rattle.std.specs.Prelude.{◌≡◌, true, ◌≤◌, length};
ghost use Rattle.file_format.specs.Layout.{record_at, is_first, is_row, file_verdict};
ghost use Rattle.file_format.specs.Judging.{Passed};

use super::bytes::two_at;
use super::records::{advanced, opened, record_at};
use super::{FIRST, LAST, ROW, Reached};
use mesh::limits::MOST_VALENCE;
use rings::Refusal;

// Does a whole record of this kind, with a payload of this length, begin at a place?
fn is_record(bytes: &[u8], at: usize, wanted: usize, size: usize) -> bool
    ensures { result ≡ record_at bytes.now at wanted size }
{
    matches!(record_at(bytes, at), Some(record) if record.kind == wanted && record.length == size)
}

// Does a row begin at a place?
fn is_row(bytes: &[u8], at: usize) -> bool
    requires { at ≤ length bytes.now }
    ensures { result ≡ is_row bytes.now at }
{
    if bytes.len() - at < 20 {
        return false;
    }
    let n = two_at(bytes, at + 18);
    is_record(bytes, at, ROW, 14 + 2 * n) && n <= MOST_VALENCE
}

// The first of so many records, from the second on, that is no row, or their number; and where it begins. One reader advances over them all: past the first
// record, and then from row to row.
fn past_rows(bytes: &[u8], count: usize) -> Reached
    requires { is_first bytes.now ≡ true }
    ensures { Passed bytes.now count result.row result.at }
{
    let mut records = advanced(opened(bytes));
    for row in 0..count {
        if !is_row(records.bytes, records.at) {
            return Reached {
                row,
                at: records.at,
            };
        }
        records = advanced(records);
    }
    Reached {
        row: count,
        at: records.at,
    }
}

// Is the layout as expected, or where is it first not?
pub fn judge(bytes: &[u8]) -> Result<(), Refusal>
    ensures { result ≡ file_verdict bytes.now }
{
    if !is_record(bytes, 0, FIRST, 2) {
        return Err(Refusal::FileLayout(0));
    }
    let count = two_at(bytes, 6);
    let reached = past_rows(bytes, count);
    let at = reached.at;
    if reached.row < count {
        return Err(Refusal::FileLayout(at));
    }
    if !is_record(bytes, at, LAST, 0) {
        return Err(Refusal::FileLayout(at));
    }
    if at + 6 < bytes.len() {
        return Err(Refusal::FileLayout(at + 6));
    }
    Ok(())
}
