//! A packet of the name service, as its sections.
//!
//! ```text
//!                      1 1 1 1 1 1 1 1 1 1 2 2 2 2 2 2 2 2 2 2 3 3
//!  0 1 2 3 4 5 6 7 8 9 0 1 2 3 4 5 6 7 8 9 0 1 2 3 4 5 6 7 8 9 0 1
//! +-+-+-+-+-+-+-+-+-+-+-+-+-+-+-+-+-+-+-+-+-+-+-+-+-+-+-+-+-+-+-+-+
//! |         NAME_TRN_ID           | OPCODE  |   NM_FLAGS  | RCODE |
//! +-+-+-+-+-+-+-+-+-+-+-+-+-+-+-+-+-+-+-+-+-+-+-+-+-+-+-+-+-+-+-+-+
//! |          QDCOUNT              |           ANCOUNT             |
//! +-+-+-+-+-+-+-+-+-+-+-+-+-+-+-+-+-+-+-+-+-+-+-+-+-+-+-+-+-+-+-+-+
//! |          NSCOUNT              |           ARCOUNT             |
//! +-+-+-+-+-+-+-+-+-+-+-+-+-+-+-+-+-+-+-+-+-+-+-+-+-+-+-+-+-+-+-+-+
//! /                       QUESTION ENTRIES                        /
//! /                    ANSWER RESOURCE RECORDS                    /
//! /                  ADDITIONAL RESOURCE RECORDS                  /
//! +-+-+-+-+-+-+-+-+-+-+-+-+-+-+-+-+-+-+-+-+-+-+-+-+-+-+-+-+-+-+-+-+
//! ```
//!
//! RFC 1002 sections 4.2.1 to 4.2.1.3.

use nbt_name::LentName;

/// A question (RFC 1002 section 4.2.1.2).
#[derive(Debug, Drop)]
pub struct Question<'a> {
    /// The name that is queried, lent by the packet's octets.
    pub name: LentName<'a>,
    /// QUESTION_TYPE: 0x0020 is NB, 0x0021 NBSTAT.
    pub rtype: u16,
    /// QUESTION_CLASS: 0x0001 is IN.
    pub class: u16,
}

/// A resource record (RFC 1002 section 4.2.1.3).
#[derive(Debug, Drop)]
pub struct Record<'a> {
    /// The name that the record is about, lent by the packet's octets.
    pub name: LentName<'a>,
    /// RR_TYPE: 0x0020 is NB, 0x0021 NBSTAT, 0x000A NULL.
    pub rtype: u16,
    /// RR_CLASS: 0x0001 is IN.
    pub class: u16,
    /// How long the record may be kept, in seconds.
    pub ttl: u32,
    /// RDATA, at most 65,535 octets, borrowed from the packet's octets.
    pub rdata: &'a [u8],
}

/// A packet of the name service (RFC 1002 section 4.2.1).
#[derive(Debug, Drop)]
pub struct Packet<'a> {
    /// NAME_TRN_ID, which matches a reply to its request.
    pub id: u16,
    /// The header's second word: R and OPCODE, the flags and RCODE.
    pub flags: u16,
    /// The question, if QDCOUNT is 1.
    pub question: Option<Question<'a>>,
    /// The answer, if ANCOUNT is 1.
    pub answer: Option<Record<'a>>,
    /// The additional record, if ARCOUNT is 1.
    pub additional: Option<Record<'a>>,
}
