// Pairs of vertices: their marks in memory, and the pair test of direct simulation. Parts of the calls; no host calls these.
#![tactic(auto)]

pub mod packed;
pub mod reading;
pub mod test;
pub mod writing;
