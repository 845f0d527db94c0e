//! Names, packets, leases, the server, the node, datagrams, sessions and the world, tested from without by worked rows.
//!
//! A crate with tests is proved twice, and a row in a table costs the prover little: so the tests stand here, as tables.
#![tactic(auto)]

#[cfg(test)]
mod tests;
