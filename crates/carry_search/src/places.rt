// Where the parts of the work memory start, and its length. Room for one pair and one link more than a plan may have.
use table::limits::{LINKS, POSITIONS};

// The old positions and the vertices of the pairs, the heads of the chains, and from each pair the next of its chain.
pub const OLDS_AT: usize = 0;

pub const VERTICES_AT: usize = OLDS_AT + POSITIONS + 1;

pub const HEADS_AT: usize = VERTICES_AT + POSITIONS + 1;

pub const NEXTS_AT: usize = HEADS_AT + POSITIONS;

// The sources and the targets of the links.
pub const SOURCES_AT: usize = NEXTS_AT + POSITIONS + 1;

pub const TARGETS_AT: usize = SOURCES_AT + LINKS + 1;

pub const WORK_LENGTH: usize = TARGETS_AT + LINKS + 1;
