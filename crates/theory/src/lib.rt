#![tactic(auto)]

// The crate is its specs/, and has no function: parity games, direct simulation, reduction and the transfer of winners.
