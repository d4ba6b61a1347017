// The limits of games and plans, and the sizes of the local arrays that go with them.

// Vertices and edges of a game.
pub const VERTICES: usize = 512;

pub const EDGES: usize = 4096;

// Positions and links of a plan.
pub const POSITIONS: usize = 4096;

pub const LINKS: usize = 16384;

// Where the groups of an index start, and where the last one ends.
pub const VERTEX_STARTS: usize = VERTICES + 1;

pub const POSITION_STARTS: usize = POSITIONS + 1;

// Pairs of vertices, the words and the bytes that hold a bit for each of them, and words of a game table.
pub const PAIRS: usize = VERTICES * VERTICES;

pub const PAIR_WORDS: usize = PAIRS / 64;

pub const PAIR_BYTES: usize = PAIRS / 8;

pub const TABLE_WORDS: usize = 2 + 2 * VERTICES + 2 * EDGES;
