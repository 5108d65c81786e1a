// Reading a face list into the lent tables: judged whole before the first write.
#![tactic(auto)]

ghost use Rattle.std.specs.Prelude.{◌≡◌};
ghost use Rattle.rings.specs.Table.{lent, put, valence_rows, ring_rows, point_rows};
ghost use Rattle.rings.specs.Verdict.{after};
ghost use Rattle.off_text.specs.Layout.{text_point};
ghost use Rattle.off_text.specs.ReadOff.{text_ring, faces_verdict, read_off_answer, read_off_valences, read_off_rings, read_off_positions};
ghost use Rattle.off_reading.specs.Reading.{Lines};

use mesh::limits::Vertex;
use off_blocks::{PLACES, ROWS};
use off_filling::fill_rings;
use off_judge::judge_vertices;
use off_layout::{Text, judge_text};
use off_points::{fill_points, first_far};
use rings::Refusal;
use rings::table::{is_bad_count, is_short};

// Judges the faces and the points, 21, 4 and 7, and writes the tables where all is accepted. The small tables are its own.
fn read_lines(
    text: &[u8],
    count: usize,
    faces: usize,
    points: usize,
    corners: usize,
    valences: &mut [u16],
    rings: &mut [Vertex],
    positions: &mut [i32],
) -> Result<(), Refusal>
    requires { Lines text.now count faces points corners (lent valences.old rings.old) positions.old }
    ensures value { result ≡ faces_verdict text.now }
    ensures valences_after { valences.new
        ≡ after result (put valences.old 0 (valence_rows (text_ring text.now) count)) valences.old }
    ensures rings_after { rings.new ≡ after result (put rings.old 0 (ring_rows (text_ring text.now) count)) rings.old }
    ensures positions_after { positions.new
        ≡ after result (put positions.old 0 (point_rows (text_point text.now) count)) positions.old }
{
    let mut counts = [0; ROWS];
    let mut froms = [0; PLACES];
    let mut tos = [0; PLACES];
    let faults = judge_vertices(
        text,
        corners,
        faces,
        count,
        &mut counts,
        &mut froms,
        &mut tos,
    );
    let open = faults.opens;
    if open < count {
        return Err(Refusal::OpenRing(open));
    }
    let unfit = faults.unfit;
    if unfit < count {
        return Err(Refusal::RingImproper(unfit));
    }
    let far = first_far(text, points, count);
    if far < count {
        return Err(Refusal::ControlCoordinate(far));
    }
    fill_rings(
        text,
        corners,
        faces,
        count,
        &mut counts,
        &mut froms,
        &mut tos,
        valences,
        rings,
    );
    fill_points(text, points, positions, count);
    Ok(())
}

// Reads a face list: reasons 20, 2, 1, 21, 4 and 7, and V. A refused text leaves the tables as they were.
pub fn read_off(
    text: &[u8],
    valences: &mut [u16],
    rings: &mut [Vertex],
    positions: &mut [i32],
) -> Result<usize, Refusal>
    ensures value { result ≡ read_off_answer text.now (lent valences.old rings.old) positions.old }
    ensures valences_after { valences.new ≡ read_off_valences text.now (lent valences.old rings.old) positions.old }
    ensures rings_after { rings.new ≡ read_off_rings text.now (lent valences.old rings.old) positions.old }
    ensures positions_after { positions.new ≡ read_off_positions text.now (lent valences.old rings.old) positions.old }
{
    let Text {
        count,
        faces,
        points,
        corners,
    } = judge_text(text)?;
    if is_bad_count(count) {
        return Err(Refusal::VertexCount);
    }
    if is_short(valences, rings, positions, count) {
        return Err(Refusal::TableTooShort);
    }
    read_lines(
        text, count, faces, points, corners, valences, rings, positions,
    )?;
    Ok(count)
}
