// The limits that the code names, each once, and the type of a vertex number. specs/Limits.antt has
// the definitions' ones.

// A vertex number, as a place of a ring holds it. A valence is a count and no vertex number: it has
// 16 bits whatever this type is.
pub type Vertex = u16;

// A place of a ring holds numbers below this.
pub const PLACE_BOUND: usize = 65536;

// The number that stands for no vertex.
pub const NULL_VERTEX: Vertex = 65535;

// V of a control mesh.
pub const LEAST_COUNT: usize = 4;

pub const MOST_COUNT: usize = 1024;

// A valence; the greatest is also the places of a row.
pub const LEAST_VALENCE: usize = 3;

pub const MOST_VALENCE: usize = 32;

// The levels that may be asked for.
pub const LEAST_LEVELS: usize = 1;

pub const MOST_LEVELS: usize = 4;

// The vertices of a level.
pub const MOST_VERTICES: usize = 65535;

// A coordinate in units.
pub const LEAST_UNITS: i32 = -1048576;

pub const MOST_UNITS: i32 = 1048576;

// A coordinate where a move ends, in millimetres, ends included.
pub const LOW_MILLIMETRES: f64 = -1024.0;

pub const HIGH_MILLIMETRES: f64 = 1024.0;

// The longest list of moves.
pub const MOST_MOVES: usize = 64;

// The listing program: the longest input in bytes, and the stack vertices, ring places and
// coordinates that its tables have room for.
pub const LISTING_BYTES: usize = 16384;

pub const LISTING_VERTICES: usize = 256;

pub const LISTING_PLACES: usize = 8192;

pub const LISTING_COORDINATES: usize = 768;

// The longest text that it prints, in bytes.
pub const LISTING_TEXT: usize = 32768;
