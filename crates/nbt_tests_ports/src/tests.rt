//! One file for each subject.

mod addresses;
mod asking;
mod expect;
mod front_files;
mod host;
mod hosting;
mod log;
mod lookups;
mod memory;
mod nbns;
mod ports;
mod receiving;
mod releases;
mod samba;
mod scans;
mod stage;
