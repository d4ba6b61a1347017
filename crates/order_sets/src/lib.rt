#![tactic(auto)]

// The crate is its specs/, and has no function: what a round over rows of bits does, said of sets, for rows of any width.
