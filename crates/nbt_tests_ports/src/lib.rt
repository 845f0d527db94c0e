//! Ports, and lookups, scans, releases, hosts and name servers over them and over files, tested from without by worked rows.
#![tactic(auto)]

#[cfg(test)]
mod tests;
