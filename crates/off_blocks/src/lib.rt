// The shape of a block: how many rows it has, and how wide they are in the next one.
#![tactic(auto)]

ghost use Rattle.std.specs.Prelude.{◌<◌};
ghost use Rattle.off_blocks.specs.Blocks.{places, Width, Block};

// The places of each table, and the most rows.
pub const PLACES: usize = 1024;

pub const ROWS: usize = 128;

// The least width of a row.
pub const LEAST_WIDTH: usize = 8;

// How many rows of a width there are, where so many vertices are left.
pub fn rows_of(width: usize, left: usize) -> usize
    requires { Width width }
    ensures { Block width left result }
{
    left.min(PLACES / width)
}

// The width behind a block that was wide enough for all its vertices.
pub fn narrower(width: usize) -> usize
    requires { Width width }
    ensures { Width result }
{
    if width < 2 * LEAST_WIDTH {
        width
    } else {
        width / 2
    }
}

// The width behind a block that was too narrow.
pub fn wider(width: usize) -> usize
    requires width { Width width }
    requires width_lt_places { width < places }
    ensures width_2 { Width result }
    ensures lower_bound { width < result }
{
    PLACES.min(width * 2)
}
