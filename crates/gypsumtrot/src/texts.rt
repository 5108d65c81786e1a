// Reading and writing a face list as OFF text.
ghost use Rattle.std.specs.Prelude.{◌≡◌};
ghost use Rattle.rings.specs.Table.{lent};
ghost use Rattle.rings.specs.Paper.{paper_amount};
ghost use Rattle.off_text.specs.ReadOff.{read_off_answer, read_off_valences, read_off_rings, read_off_positions};
ghost use Rattle.off_text.specs.WriteOff.{write_off_answer, write_off_room};
ghost use Rattle.c_answers.specs.Crossing.{value_paper};

use c_answers::ValueAnswer;
use c_answers::answers::of_amount;
use mesh::limits::Vertex;
use off_reading::read_off;
use off_writing::write_off;

// Reads a face list into the tables.
#[unsafe(no_mangle)]
pub extern "C" fn gt_read_off(
    text: &[u8],
    valences: &mut [u16],
    rings: &mut [Vertex],
    positions: &mut [i32],
) -> ValueAnswer
    ensures result_value { value_paper result ≡ paper_amount (read_off_answer text.now (lent valences.old rings.old) positions.old) }
    ensures valences_after { valences.new ≡ read_off_valences text.now (lent valences.old rings.old) positions.old }
    ensures rings_after { rings.new ≡ read_off_rings text.now (lent valences.old rings.old) positions.old }
    ensures positions_after { positions.new ≡ read_off_positions text.now (lent valences.old rings.old) positions.old }
{
    of_amount(read_off(text, valences, rings, positions))
}

// Writes the control mesh as a face list.
#[unsafe(no_mangle)]
pub extern "C" fn gt_write_off(
    valences: &[u16],
    rings: &[Vertex],
    positions: &[i32],
    count: usize,
    text: &mut [u8],
) -> ValueAnswer
    ensures result_value { value_paper result
        ≡ paper_amount (write_off_answer count (lent valences.now rings.now) positions.now text.old) }
    ensures text_after { text.new ≡ write_off_room count (lent valences.now rings.now) positions.now text.old }
{
    of_amount(write_off(valences, rings, positions, count, text))
}
