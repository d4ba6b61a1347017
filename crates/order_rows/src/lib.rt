// Sets of vertices as rows of bits: a row of words, and rows one after another. Parts of the calls; no host calls these.
#![tactic(auto)]

pub mod matrix;
pub mod row;
