// Reading a mesh file into the lent tables: judged whole before the first write.
#![tactic(auto)]

ghost use Rattle.std.specs.Prelude.{◌≡◌};
ghost use Rattle.rings.specs.Table.{lent};
ghost use Rattle.file_reading.specs.Read.{read_answer, read_valences, read_rings, read_positions};

pub mod rows;

use self::rows::read_rows;
use file_format::bytes::two_at;
use file_format::layout::judge;
use mesh::limits::Vertex;
use rings::Refusal;
use rings::table::{is_bad_count, is_short};

// Reads a file: reasons 17, 2 and 1, and V. A refused file leaves the tables as they were.
pub fn read(
    bytes: &[u8],
    valences: &mut [u16],
    rings: &mut [Vertex],
    positions: &mut [i32],
) -> Result<usize, Refusal>
    ensures value { result ≡ read_answer bytes.now (lent valences.old rings.old) positions.old }
    ensures valences_after { valences.new ≡ read_valences bytes.now (lent valences.old rings.old) positions.old }
    ensures rings_after { rings.new ≡ read_rings bytes.now (lent valences.old rings.old) positions.old }
    ensures positions_after { positions.new ≡ read_positions bytes.now (lent valences.old rings.old) positions.old }
{
    judge(bytes)?;
    let count = two_at(bytes, 6);
    if is_bad_count(count) {
        return Err(Refusal::VertexCount);
    }
    if is_short(valences, rings, positions, count) {
        return Err(Refusal::TableTooShort);
    }
    read_rows(bytes, valences, rings, positions, count);
    Ok(count)
}
