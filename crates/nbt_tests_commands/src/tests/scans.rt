//! The rows of the commands `scan` and `release`: what they ask, hear and print over UDP and a clock that is set.

use super::machine::BOOT;
use super::serving::Row;

/// A node status request for all names, and the reply of a file server in a workgroup, where ANNA is logged in: FRED#00, TEAM#00 as a group,
/// ANNA#03 and FRED#20, with its unit id. The id of both is the first that ChaCha20 gives for a seed of zeros and a last octet of 1, as the
/// machine's source of random octets has it.
const ASKS: &str = "5af0_0000_0001_0000_0000_0000_{STAR}_0021_0001";

const NAMES: &str =
    "5af0_8400_0000_0001_0000_0000_{STAR}_0021_0001_00000000_0077_04_46524544202020202020202020202000_0400_5445414d202020202020202020202000_8400_414e4e41202020202020202020202003_0400_46524544202020202020202020202020_0400_005056c00008_00000000000000000000000000000000000000000000000000000000000000000000000000000000";

const START: u64 = BOOT + 65_537;

/// When the wait of a pass that begins at START is over.
const END: u64 = START + 1;

/// A scan reads its clock as it begins, for the id, and once a turn. The turn in which the reply comes is the first, and one more finds that
/// all have replied.
pub static SCANS: [Row; 5] = [
    Row {
        about: "a host's line",
        words: "nbt scan 127.42.22.3 --port 20139 --bind 127.42.22.2:20138",
        moments: &[START],
        sends: &[(3, NAMES)],
        breaks_at: 0,
        sets: &[],
        status: 0,
        readings: 4,
        text: "127.42.22.3      FRED             TEAM             ANNA             server  00:50:56:c0:00:08\n",
        errors: "",
        sent: &[ASKS],
    },
    Row {
        about: "its names below it",
        words: "nbt scan 127.42.22.3-3 --long --sorted --port 20139 --bind 127.42.22.2:20138",
        moments: &[START],
        sends: &[(3, NAMES)],
        breaks_at: 0,
        sets: &[],
        status: 0,
        readings: 4,
        text: "\
127.42.22.3      FRED             TEAM             ANNA             server  00:50:56:c0:00:08
  FRED#00 unique active  workstation
  TEAM#00 group active  domain or workgroup
  ANNA#03 unique active  messenger
  FRED#20 unique active  file server
",
        errors: "",
        sent: &[ASKS],
    },
    Row {
        about: "an object of JSON",
        words: "nbt scan 127.42.22.3/32 --json --port 20139 --bind 127.42.22.2:20138",
        moments: &[START],
        sends: &[(3, NAMES)],
        breaks_at: 0,
        sets: &[],
        status: 0,
        readings: 4,
        text: "{\"address\":\"127.42.22.3\",\"computer\":\"FRED\",\"workgroup\":\"TEAM\",\"user\":\"ANNA\",\"server\":true,\"unit_id\":\"00:50:56:c0:00:08\",\"names\":[\"FRED#00\",\"TEAM#00\",\"ANNA#03\",\"FRED#20\"]}\n",
        errors: "",
        sent: &[ASKS],
    },
    Row {
        about: "a line of /etc/hosts",
        words: "nbt scan 127.42.22.3 --hosts --port 20139 --bind 127.42.22.2:20138",
        moments: &[START],
        sends: &[(3, NAMES)],
        breaks_at: 0,
        sets: &[],
        status: 0,
        readings: 4,
        text: "127.42.22.3 FRED\n",
        errors: "",
        sent: &[ASKS],
    },
    Row {
        about: "no host replies in a pass and a millisecond",
        words: "nbt scan 127.42.22.3 --tries 1 --wait 1ms --port 20139 --bind 127.42.22.2:20138",
        moments: &[START, START, START, END],
        sends: &[],
        breaks_at: 0,
        sets: &[],
        status: 1,
        readings: 4,
        text: "",
        errors: "",
        sent: &[ASKS],
    },
];

/// The release of FRED, whose id is the machine's random number; that it is released, that the server has no such
/// name, and that another holds it.
const RELEASES: &str =
    "0001_3000_0001_0000_0000_0001_{FRED}_0020_0001_c00c_0020_0001_00000000_0006_2000_7f2a1602";

const RELEASED: &str = "0001_b400_0000_0001_0000_0000_{FRED}_0020_0001_00000000_0006_2000_7f2a1602";

const NOT_LEASED: &str =
    "0001_b403_0000_0001_0000_0000_{FRED}_0020_0001_00000000_0006_2000_7f2a1602";

const REFUSED: &str = "0001_b406_0000_0001_0000_0000_{FRED}_0020_0001_00000000_0006_2000_7f2a1602";

/// A release reads its clock at its start, in its turn, and at its end.
pub static RELEASING: [Row; 3] = [
    Row {
        about: "a name that the server releases",
        words: "nbt release fred --server 127.42.22.3:20139 --bind 127.42.22.2:20138",
        moments: &[START],
        sends: &[(2, RELEASED)],
        breaks_at: 0,
        sets: &[],
        status: 0,
        readings: 3,
        text: "released FRED#20\n",
        errors: "",
        sent: &[RELEASES],
    },
    Row {
        about: "one that it has no lease of",
        words: "nbt release fred --server 127.42.22.3:20139 --bind 127.42.22.2:20138",
        moments: &[START],
        sends: &[(2, NOT_LEASED)],
        breaks_at: 0,
        sets: &[],
        status: 0,
        readings: 3,
        text: "not leased FRED#20\n",
        errors: "",
        sent: &[RELEASES],
    },
    Row {
        about: "one that another holds",
        words: "nbt release fred --server 127.42.22.3:20139 --bind 127.42.22.2:20138",
        moments: &[START],
        sends: &[(2, REFUSED)],
        breaks_at: 0,
        sets: &[],
        status: 1,
        readings: 3,
        text: "refused FRED#20: held by another (6)\n",
        errors: "",
        sent: &[RELEASES],
    },
];
