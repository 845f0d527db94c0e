//! What a node's names say of its host.

ghost use Rattle.std.specs.Prelude.{◌≡◌, take};
ghost use Rattle.nbt_scan.specs.Hosts.{is_unique, passes, IsFirst, user_of, unit_of, IsHost};

/// G in the first octet of NAME_FLAGS (RFC 1002 section 4.2.18).
const GROUP: u8 = 0x80;

/// The suffix of a computer's name, and of a workgroup's (Microsoft's list).
const COMPUTER: u8 = 0x00;

/// The suffix of a messenger's name: the computer's own, and that of who is logged in (Microsoft's list).
const MESSENGER: u8 = 0x03;

/// The suffix of a file server's name (Microsoft's list).
const SERVER: u8 = 0x20;

/// Which name is looked for.
#[derive(Clone, Copy)]
pub enum Wanted {
    /// One machine's name with this suffix.
    Unique(u8),
    /// A group's.
    Group(u8),
    /// One machine's with this suffix, and with other octets before it than these.
    Other(u8, [u8; 15]),
}

impl Wanted {
    /// Whether this is such a name, of sixteen octets and NAME_FLAGS.
    fn passes(&self, name: &[u8; 18]) -> bool
        ensures { result ≡ passes self.now name.now }
    {
        match self {
            Wanted::Unique(suffix) => name[15] == *suffix && is_unique(name),
            Wanted::Group(suffix) => name[15] == *suffix && !is_unique(name),
            Wanted::Other(suffix, front) => {
                name[15] == *suffix && is_unique(name) && front_of(name) != *front
            }
        }
    }
}

/// Whether a name is one machine's.
fn is_unique(name: &[u8; 18]) -> bool
    ensures { result ≡ is_unique name.now }
{
    name[16] < GROUP
}

/// The octets before the suffix.
fn front_of(name: &[u8; 18]) -> [u8; 15]
    ensures { result ≡ take 15 name.now }
{
    *name.first_chunk::<15>().unwrap()
}

/// The first such name in a row of names of 18 octets each.
pub fn first_name(names: &[u8], wanted: Wanted) -> Option<[u8; 18]>
    ensures { IsFirst (passes wanted) names.now result }
{
    let mut rest = names;
    'names: while let Some((name, others)) = rest.split_first_chunk::<18>() {
        if wanted.passes(name) {
            return Some(*name);
        }
        rest = others;
    }
    None
}

/// What a node's names say of its host, each name as 18 octets: the sixteen, and NAME_FLAGS.
#[derive(Clone, Copy)]
pub struct Host {
    /// The computer's name.
    pub computer: Option<[u8; 18]>,
    /// Its workgroup or domain.
    pub group: Option<[u8; 18]>,
    /// Who is logged in.
    pub user: Option<[u8; 18]>,
    /// Its name as a file server.
    pub server: Option<[u8; 18]>,
    /// The unit id, mostly the address of a network card.
    pub unit: Option<[u8; 6]>,
}

impl Host {
    /// Of these names, and of the statistics behind them.
    pub fn of(names: &[u8], statistics: &[u8]) -> Host
        ensures { IsHost names.now statistics.now result }
    {
        let computer = first_name(names, Wanted::Unique(COMPUTER));
        let group = first_name(names, Wanted::Group(COMPUTER));
        let user = first_name(names, user_of(computer));
        let server = first_name(names, Wanted::Unique(SERVER));
        Host {
            computer,
            group,
            user,
            server,
            unit: unit_of(statistics),
        }
    }
}

/// The name of who is logged in: a messenger's that isn't the computer's.
fn user_of(computer: Option<[u8; 18]>) -> Wanted
    ensures { result ≡ user_of computer }
{
    match computer {
        Some(computer) => Wanted::Other(MESSENGER, front_of(&computer)),
        None => Wanted::Unique(MESSENGER),
    }
}

/// The unit id, if it is there and isn't zero (RFC 1002 section 4.2.18).
fn unit_of(statistics: &[u8]) -> Option<[u8; 6]>
    ensures { result ≡ unit_of statistics.now }
{
    match statistics.first_chunk::<6>() {
        Some(unit) if *unit != [0; 6] => Some(*unit),
        _ => None,
    }
}
