// Rows of one word, for games of at most 64 vertices: the rows of a game's edges, and what each vertex loses in a round. Parts of the calls; no
// host calls these.
#![tactic(auto)]

pub mod edges;
pub mod losses;
pub mod sets;
