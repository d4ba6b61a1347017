// What is claimed of the library stands in specs/; `claims_calls` has a function for each call, whose promise it is.
#![tactic(auto)]

use order::PassCount;
use table::{NoCounts, Refusal};

// The verdicts of the two calls.
#[derive(Clone, Copy)]
pub struct Containment {
    pub relation: Result<NoCounts, Refusal>,
    pub order: Result<PassCount, Refusal>,
}
