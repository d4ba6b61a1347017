// What the certificate of a reduction of a large game is tested for: parts of `check_reduction`; no host calls them. Nothing is written, and each
// test is a fixed number of reads, so the time goes by vertices and edges.
#![tactic(auto)]

mod searches;
mod tests;

// A game of n vertices and m edges, its reduced game of k and q, the class of each vertex, and the certificate.
#[derive(Clone, Copy)]
pub struct Merge<'a> {
    pub game: &'a [u32],
    pub reduced: &'a [u32],
    pub classes: &'a [u32],
    pub certificate: &'a [u32],
    pub n: usize,
    pub m: usize,
    pub k: usize,
    pub q: usize,
}
