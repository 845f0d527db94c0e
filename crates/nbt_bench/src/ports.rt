//! The three ports that are used.

ghost use Rattle.std.specs.Prelude.{◌≡◌, ◌+◌, ◌<◌, ◌≤◌, ◌↔◌, IsSome, IfSome};
ghost use Rattle.nbt_bench.specs.Numbers.{first_port_most};

/// The greatest first port: two more follow it (our profile).
pub const FIRST_PORT_MOST: u64 = 65_533;

/// Three ports in a row: of the name service and of datagrams over UDP, and of sessions over TCP.
#[derive(Clone, Copy, Debug, PartialEq, Eq)]
pub struct Ports {
    names: u16,
    ghost room: { (1 ≤ names) × (names ≤ first_port_most) },
}

impl Ports {
    /// The three ports of which the first is `first`, which is 1 to 65,533; else none (our profile).
    pub fn new(first: u64) -> Option<Ports>
        ensures found { IsSome result ↔ ((1 ≤ first) × (first ≤ first_port_most)) }
        ensures names { IfSome result (λ ports. ports.names ≡ first) }
    {
        if first == 0 || first > FIRST_PORT_MOST {
            return None;
        }
        Some(Ports {
            names: first as u16,
        })
    }

    /// The UDP port of the name service.
    pub fn names(self) -> u16
        ensures { result ≡ self.names }
    {
        self.names
    }

    /// The UDP port of datagrams: one above that of the name service.
    pub fn datagrams(self) -> u16
        ensures { result ≡ self.names + 1 }
    {
        self.names + 1
    }

    /// The TCP port of sessions: two above that of the name service.
    pub fn sessions(self) -> u16
        ensures { result ≡ self.names + 2 }
    {
        self.names + 2
    }
}
