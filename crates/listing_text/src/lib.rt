// The text of the listing program: what it prints for an input.
#![tactic(auto)]

ghost use Rattle.std.specs.Prelude.{◌≡◌, ◌≤◌, length};
ghost use Rattle.mesh.specs.Limits.{listing_vertices};
ghost use Rattle.rings.specs.Table.{lent, put};
ghost use Rattle.listing_text.specs.Listing.{refined_text, file_text, listing_text};
ghost use Rattle.numerals.specs.Wrote.{Wrote};

use file_reading::read;
use listing_lines::{LEVEL, put_level, put_refused};
use mesh::limits::{LISTING_BYTES, LISTING_COORDINATES, LISTING_PLACES, LISTING_VERTICES, Vertex};
use rings::{Counts, Refusal};
use stack_refine::refine;

// Refines the control mesh one level, and writes that level or why it is refused.
fn put_refined(
    text: &mut [u8],
    valences: &mut [u16],
    rings: &mut [Vertex],
    positions: &mut [i32],
    count: usize,
) -> usize
    requires in_bounds { 32768 ≤ length text.old }
    requires valences_len_bound { length valences.old ≤ listing_vertices }
    ensures { Wrote text.old 0 (refined_text count (lent valences.old rings.old) positions.old) text.new result 32768 }
{
    match refine(valences, rings, positions, count, LEVEL) {
        Err(r) => put_refused(text, r),
        Ok(Counts { v, e, f }) => put_level(text, valences, positions, count, v, e, f),
    }
}

// Reads the input into the tables, and writes its level 1 or why it is refused.
fn put_read(
    text: &mut [u8],
    input: &[u8],
    valences: &mut [u16],
    rings: &mut [Vertex],
    positions: &mut [i32],
) -> usize
    requires in_bounds { 32768 ≤ length text.old }
    requires valences_len_bound { length valences.old ≤ listing_vertices }
    ensures { Wrote text.old 0 (file_text input.now (lent valences.old rings.old) positions.old) text.new result 32768 }
{
    match read(input, valences, rings, positions) {
        Err(r) => put_refused(text, r),
        Ok(count) => put_refined(text, valences, rings, positions, count),
    }
}

// Writes the whole text at the start of `text`, and answers how many bytes it has.
pub fn listing(input: &[u8], text: &mut [u8]) -> usize
    requires { 32768 ≤ length text.old }
    ensures text_after { text.new ≡ put text.old 0 (listing_text input.now) }
    ensures value { result ≡ length (listing_text input.now) }
    ensures upper_bound { result ≤ 32768 }
{
    if LISTING_BYTES < input.len() {
        return put_refused(text, Refusal::NoRoom);
    }
    let mut valences = [0u16; LISTING_VERTICES];
    let mut rings = [0 as Vertex; LISTING_PLACES];
    let mut positions = [0i32; LISTING_COORDINATES];
    put_read(text, input, &mut valences, &mut rings, &mut positions)
}
