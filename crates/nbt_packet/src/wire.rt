//! The numbers of name service packets, under the names of RFC 1002.

/// The most octets of a packet over UDP, MAX_DATAGRAM_LENGTH (RFC 1002 section 6).
pub const DATAGRAM_MOST: usize = 576;
/// How many octets the header has: six words (RFC 1002 section 4.2.1.1).
pub const HEADER: usize = 12;
/// Where NAME_TRN_ID stands (RFC 1002 section 4.2.1.1).
pub const NAME_TRN_ID: usize = 0;
/// Where the word of R, OPCODE, NM_FLAGS and RCODE stands (RFC 1002 section 4.2.1.1).
pub const FLAGS: usize = 2;
/// Where the count of questions stands (RFC 1002 section 4.2.1.1).
pub const QDCOUNT: usize = 4;
/// Where the count of answers stands (RFC 1002 section 4.2.1.1).
pub const ANCOUNT: usize = 6;
/// Where the count of authority records stands (RFC 1002 section 4.2.1.1).
pub const NSCOUNT: usize = 8;
/// Where the count of additional records stands (RFC 1002 section 4.2.1.1).
pub const ARCOUNT: usize = 10;

/// How many octets stand between a record's name and its RDATA: type, class, TTL and RDLENGTH (RFC 1002 section
/// 4.2.1.3).
pub const RECORD_FIELDS: usize = 10;

/// Type NB, a name's entries (RFC 1002 section 4.2.1.3).
pub const NB: u16 = 0x0020;
/// Type NBSTAT, a node's status (RFC 1002 section 4.2.1.3).
pub const NBSTAT: u16 = 0x0021;
/// Type NULL, no data (RFC 1002 section 4.2.1.3).
pub const NULL: u16 = 0x000A;
/// Class IN (RFC 1002 section 4.2.1.3).
pub const IN: u16 = 0x0001;

/// OPCODE of a query (RFC 1002 section 4.2.1.1).
pub const OPCODE_QUERY: u16 = 0;
/// OPCODE of a registration (RFC 1002 section 4.2.1.1).
pub const OPCODE_REGISTRATION: u16 = 5;
/// OPCODE of a release (RFC 1002 section 4.2.1.1).
pub const OPCODE_RELEASE: u16 = 6;
/// OPCODE of a request to wait (RFC 1002 section 4.2.1.1).
pub const OPCODE_WACK: u16 = 7;
/// OPCODE of a refresh (RFC 1002 section 4.2.1.1).
pub const OPCODE_REFRESH: u16 = 8;
/// OPCODE of a refresh in the layout of RFC 1002 section 4.2.4, and of nodes that follow it.
pub const OPCODE_REFRESH_9: u16 = 9;

/// The greatest RCODE, of four bits (RFC 1002 section 4.2.1.1).
pub const RCODE_MOST: u8 = 15;

/// How many octets ADDR_ENTRY has, NB_FLAGS and NB_ADDRESS (RFC 1002 section 4.2.13).
pub const ADDR_ENTRY: usize = 6;
/// The most entries that RDLENGTH, of 16 bits, counts (RFC 1002 section 4.2.1.3).
pub const ADDR_ENTRIES_MOST: usize = 10922;
/// The first octet of NB_FLAGS of a P node: ONT 01 (RFC 1002 section 4.2.1.3).
pub const NB_FLAGS_P: u8 = 0x20;
/// G of NB_FLAGS and of NAME_FLAGS, in their first octet: the name is a group's (RFC 1002 sections 4.2.1.3 and 4.2.18).
pub const GROUP: u8 = 0x80;

/// How many octets each name of NODE_NAME ARRAY has, the sixteen and NAME_FLAGS (RFC 1002 section 4.2.18).
pub const NODE_NAME: usize = 18;
/// The most names that NUM_NAMES, of one octet, counts (RFC 1002 section 4.2.18).
pub const NODE_NAMES_MOST: usize = 255;
/// The first octet of NAME_FLAGS of a P node's active name: ONT 01 and ACT (RFC 1002 section 4.2.18).
pub const NAME_FLAGS_P_ACTIVE: u8 = 0x24;
/// How many octets the STATISTICS of a node status have (RFC 1002 section 4.2.18).
pub const STATISTICS: usize = 46;
