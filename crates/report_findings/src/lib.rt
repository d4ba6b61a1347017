// All numbers of the report on a game table, from its bytes.
#![tactic(auto)]

pub mod findings;
mod input_words;

use reduction_totals::Totals;
use table::{Refusal, Sizes};

// The reader's verdict; for an accepted game also the counts of passes and of classes, the sums of the classes' members and edges, and the
// counts of the reduced game's vertices and edges.
#[derive(Clone, Copy)]
pub struct Report {
    pub verdict: Result<Sizes, Refusal>,
    pub passes: u32,
    pub classes: usize,
    pub totals: Totals,
    pub vertices: usize,
    pub edges: usize,
}
