// Writing the lent tables as a mesh file: judged whole before the first byte.
#![tactic(auto)]

ghost use Rattle.std.specs.Prelude.{◌≡◌, ◌*◌, ◌≤◌, length};
ghost use Rattle.mesh.specs.Limits.{most_count};
ghost use Rattle.mesh.specs.Search.{first};
ghost use Rattle.rings.specs.Table.{lent};
ghost use Rattle.file_writing.specs.Write.{rows_length, over_most, write_answer, write_room};

pub mod rows;

use self::rows::{put_head, put_rows};
use file_format::bytes::put_two;
use file_format::{FIRST, LAST};
use mesh::limits::{MOST_VALENCE, Vertex};
use rings::Refusal;
use rings::table::{is_bad_count, is_short};

// The first vertex whose valence is over 32, or the count.
fn first_over(valences: &[u16], count: usize) -> usize
    requires { count ≤ length valences.now }
    ensures { result ≡ first (over_most valences.now) count }
{
    (0..count)
        .find(|v| MOST_VALENCE < valences[*v] as usize)
        .unwrap_or(count)
}

// How many bytes the rows take.
fn rows_length(valences: &[u16], count: usize) -> usize
    requires count_in_bounds { count ≤ length valences.now }
    requires count_le_most_count { count ≤ most_count }
    ensures value { result ≡ rows_length valences.now count }
    ensures upper_bound { result ≤ 131090 * most_count }
{
    valences[..count]
        .iter()
        .map(|n| 20 + 2 * usize::from(*n))
        .sum()
}

// Writes the tables as a file: reasons 2, 1, 4 where a valence is over 32, and 10; and the number of bytes. Refused, the room is left as it was.
pub fn write(
    valences: &[u16],
    rings: &[Vertex],
    positions: &[i32],
    count: usize,
    file: &mut [u8],
) -> Result<usize, Refusal>
    ensures value { result ≡ write_answer count (lent valences.now rings.now) positions.now file.old }
    ensures file_after { file.new ≡ write_room count (lent valences.now rings.now) positions.now file.old }
{
    if is_bad_count(count) {
        return Err(Refusal::VertexCount);
    }
    if is_short(valences, rings, positions, count) {
        return Err(Refusal::TableTooShort);
    }
    let over = first_over(valences, count);
    if over < count {
        return Err(Refusal::RingImproper(over));
    }
    let size = 14 + rows_length(valences, count);
    if file.len() < size {
        return Err(Refusal::NoRoom);
    }
    put_head(file, 0, 2, FIRST);
    put_two(file, 6, count);
    let at = put_rows(file, valences, rings, positions, count);
    put_head(file, at, 0, LAST);
    Ok(size)
}
