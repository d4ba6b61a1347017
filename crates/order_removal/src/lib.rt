// What a round takes out of a relation: what fails and, for the governed bisimulation, its reverse. Parts of the calls; no host calls these.
#![tactic(auto)]

pub mod reverses;
pub mod rows;
