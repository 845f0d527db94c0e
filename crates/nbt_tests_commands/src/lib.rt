//! Texts, scripts, pictures and the commands, tested from without where `nbt_cases` can't: other ends on this machine's sockets, clocks
//! that are set, memory that is refused, readers and writers that fail, and calls that no command shows.
#![tactic(auto)]

#[cfg(test)]
mod tests;
