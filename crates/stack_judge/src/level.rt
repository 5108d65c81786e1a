// A level of a stack: where it begins and how large it is; level 0, and the level above.
ghost use Rattle.std.specs.Prelude.{◌≡◌, ◌≤◌};
ghost use Rattle.mesh.specs.Limits.{edge_bound};
ghost use Rattle.steps.specs.Sizes.{closed_sizes};
ghost use Rattle.stack_judge.specs.LevelAt.{level_at, above_level, SmallLevel};

// How many stack vertices stand before the level, and its V, E and F.
#[derive(Clone, Copy)]
pub struct Level {
    pub start: usize,
    pub vertices: usize,
    pub edges: usize,
    pub faces: usize,
}

// Level 0, a closed mesh.
pub fn ground(count: usize, edges: usize) -> Level
    requires { edges ≤ edge_bound }
    ensures { result ≡ level_at (closed_sizes count edges) 0 }
{
    Level {
        start: 0,
        vertices: count,
        edges,
        faces: 2 * edges / 3,
    }
}

// The level above one, by Loop's step.
pub fn above(level: Level) -> Level
    requires { SmallLevel level }
    ensures { result ≡ above_level level }
{
    Level {
        start: level.start + level.vertices,
        vertices: level.vertices + level.edges,
        edges: 2 * level.edges + 3 * level.faces,
        faces: 4 * level.faces,
    }
}
