// The edges between the classes of a game's order, in the quotient and in the reduced game. Parts of the calls; no host calls these.
#![tactic(auto)]

pub mod listing;
mod little_brothers;
