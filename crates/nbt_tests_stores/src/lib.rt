//! What a store keeps of a server's leases, what a server makes of it at its start, and a server that keeps them, tested from without
//! by worked rows.
#![tactic(auto)]

#[cfg(test)]
mod tests;
