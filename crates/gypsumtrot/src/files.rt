// Reading and writing a mesh file.
ghost use Rattle.std.specs.Prelude.{◌≡◌};
ghost use Rattle.rings.specs.Table.{lent};
ghost use Rattle.rings.specs.Paper.{paper_amount};
ghost use Rattle.file_reading.specs.Read.{read_answer, read_valences, read_rings, read_positions};
ghost use Rattle.file_writing.specs.Write.{write_answer, write_room};
ghost use Rattle.c_answers.specs.Crossing.{value_paper};

use c_answers::ValueAnswer;
use c_answers::answers::of_amount;
use file_reading::read;
use file_writing::write;
use mesh::limits::Vertex;

// Reads a mesh file into the tables.
#[unsafe(no_mangle)]
pub extern "C" fn gt_read(
    bytes: &[u8],
    valences: &mut [u16],
    rings: &mut [Vertex],
    positions: &mut [i32],
) -> ValueAnswer
    ensures result_value { value_paper result ≡ paper_amount (read_answer bytes.now (lent valences.old rings.old) positions.old) }
    ensures valences_after { valences.new ≡ read_valences bytes.now (lent valences.old rings.old) positions.old }
    ensures rings_after { rings.new ≡ read_rings bytes.now (lent valences.old rings.old) positions.old }
    ensures positions_after { positions.new ≡ read_positions bytes.now (lent valences.old rings.old) positions.old }
{
    of_amount(read(bytes, valences, rings, positions))
}

// Writes the control mesh as a mesh file.
#[unsafe(no_mangle)]
pub extern "C" fn gt_write(
    valences: &[u16],
    rings: &[Vertex],
    positions: &[i32],
    count: usize,
    file: &mut [u8],
) -> ValueAnswer
    ensures result_value { value_paper result ≡ paper_amount (write_answer count (lent valences.now rings.now) positions.now file.old) }
    ensures file_after { file.new ≡ write_room count (lent valences.now rings.now) positions.now file.old }
{
    of_amount(write(valences, rings, positions, count, file))
}
