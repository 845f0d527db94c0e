//! The library for programs in C, whose header is `include/nbt.h`: each export calls a crate's function, and states its
//! clauses again.
//!
//! Octets and times go in, octets come out: no socket, no clock, no thread, no global. A slice is passed as a pointer and a length.
//! Numbers are tested. Pointers are not: the header says what the caller must ensure, as that an object was started in its memory, or,
//! for a start, that none stands there.
#![tactic(auto)]

pub mod accepting;
pub mod buffer;
pub mod caller;
pub mod datagram;
pub mod ends;
pub mod event;
pub mod framing;
pub mod hearing;
pub mod held;
pub mod listener;
pub mod name;
pub mod naming;
pub mod node;
pub mod packet;
pub mod pieces;
pub mod result_words;
pub mod results;
pub mod serving;
pub mod splitting;
pub mod version;
pub mod wire;
pub mod words;
