// Writing the lent tables as a face list: judged whole before the first byte.
#![tactic(auto)]

ghost use Rattle.std.specs.Prelude.{◌≡◌, ◌≤◌, length};
ghost use Rattle.mesh.specs.Mesh.{edges, faces};
ghost use Rattle.rings.specs.Table.{lent, rows, coordinate_at};
ghost use Rattle.rings.specs.Accepts.{Accepts};
ghost use Rattle.file_format.specs.Blocks.{Put};
ghost use Rattle.off_text.specs.WriteOff.{text_of, write_off_answer, write_off_room};

use check_mesh::check;
use mesh::limits::Vertex;
use off_faces::put_faces;
use off_length::text_length;
use off_lines::{put_counts, put_vertices, put_word};
use rings::Refusal;

// The text of a mesh that passed the check, in a room that is long enough.
fn put_text(
    text: &mut [u8],
    valences: &[u16],
    rings: &[Vertex],
    positions: &[i32],
    count: usize,
    e: usize,
    f: usize,
)
    requires accepts { Accepts count (lent valences.now rings.now) positions.now }
    requires e_value { e ≡ edges (rows count (lent valences.now rings.now)) }
    requires f_value { f ≡ faces (rows count (lent valences.now rings.now)) }
    requires positions_in_bounds { length (text_of (rows count (lent valences.now rings.now)) (coordinate_at positions.now)) ≤ length text.old }
    ensures { Put text.old 0
        (text_of (rows count (lent valences.now rings.now)) (coordinate_at positions.now)) text.new }
{
    put_word(text);
    let vertices = put_counts(text, 4, count, f, e);
    let corners = put_vertices(text, vertices, positions, count);
    put_faces(text, corners, valences, rings, count);
}

// Writes the tables as a face list: the check, then reason 10; and the number of bytes. Refused, the room is left as it was.
pub fn write_off(
    valences: &[u16],
    rings: &[Vertex],
    positions: &[i32],
    count: usize,
    text: &mut [u8],
) -> Result<usize, Refusal>
    ensures value { result ≡ write_off_answer count (lent valences.now rings.now) positions.now text.old }
    ensures text_after { text.new ≡ write_off_room count (lent valences.now rings.now) positions.now text.old }
{
    let counts = check(valences, rings, positions, count)?;
    let size = text_length(valences, positions, count, counts.e, counts.f);
    if text.len() < size {
        return Err(Refusal::NoRoom);
    }
    put_text(text, valences, rings, positions, count, counts.e, counts.f);
    Ok(size)
}
