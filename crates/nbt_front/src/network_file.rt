//! The file of networks whose machines may register.

ghost use Rattle.std.specs.Prelude.{◌≡◌, [], ◌∷◌, IfErr, IfOk, OnOk};
ghost use Rattle.nbt_text.specs.Texts.{texts};
ghost use Rattle.nbt_front.specs.NetworkFiles.{AreNetworks, MisspellsOne, Names, NamesNone, NetworksFail, SpellsOne};
ghost use Rattle.nbt_front.specs.Inner.NetworkLines.{IsRefusedFor, fault_at};

use crate::line::said;
use crate::network::{Network, read_network};
use nbt_text::{fields_said, lines_of};
use std::alloc::{AllocError, AllocFailed, Global};
use std::fmt;

/// A file names so many networks at most (our profile).
pub const NETWORKS_MOST: usize = 1_024;

/// What is wrong with a line of the file. The first of them is reported, in this order (our profile).
#[derive(Clone, Copy, Debug, PartialEq, Eq)]
pub enum NetworkFault {
    /// The network would be one more than a file may name.
    Many,
    /// It hasn't one word.
    Words,
    /// The word spells no network.
    Network,
}

impl fmt::Display for NetworkFault {
    fn fmt<W: fmt::Write>(&self, f: &mut fmt::Formatter<W>) -> fmt::Result {
        match self {
            NetworkFault::Many => {
                let most = NETWORKS_MOST;
                write!(f, "more than {most} networks")
            }
            NetworkFault::Words => f.write_str("one network is wanted, as 192.0.2.0/24"),
            NetworkFault::Network => {
                f.write_str("no A.B.C.D/BITS or A.B.C.D, with 0 to 32 bits")
            }
        }
    }
}

/// Why a file of networks isn't read.
#[derive(Clone, Copy, Debug, PartialEq, Eq)]
pub enum NetworksFault {
    /// Out of memory.
    Memory,
    /// This line, counted from 1, can't be taken.
    Line(usize, NetworkFault),
    /// No line names a network, and with none everybody could register.
    NoNetwork,
}

impl From<AllocError> for NetworksFault {
    ghost use Rattle.nbt_front.specs.declared.network_file.NetworksFault.TheVariants.{Memory};

    ghost from_gives = { λ _ fault. fault ≡ Memory };

    fn from(_: AllocError) -> Self {
        NetworksFault::Memory
    }
}

/// Why a line isn't taken.
#[derive(Clone, Copy, Debug, PartialEq, Eq)]
pub(crate) enum NotNamed {
    /// Out of memory.
    Memory,
    /// This is wrong with it.
    Line(NetworkFault),
}

impl From<AllocError> for NotNamed {
    ghost use Rattle.nbt_front.specs.declared.network_file.NotNamed.TheVariants.{Memory};

    ghost from_gives = { λ _ refused. refused ≡ Memory };

    fn from(_: AllocError) -> Self {
        NotNamed::Memory
    }
}

impl<T: Drop> From<AllocFailed<T>> for NotNamed {
    ghost use Rattle.nbt_front.specs.declared.network_file.NotNamed.TheVariants.{Memory};

    ghost from_gives = { λ _ refused. refused ≡ Memory };

    fn from(_: AllocFailed<T>) -> Self {
        NotNamed::Memory
    }
}

/// Reads the octets of a file of networks, a line for each as [`read_network`] has it, with spaces and tabs before and behind it. A line ends
/// with a line feed, or with a carriage return and a line feed. A line that begins with `#` is a remark; it is passed over, as an empty
/// one is. Refused with `Line` at the first line that can't be taken, with its number, from 1 on, and what is wrong with it; with
/// `NoNetwork` where no line names one; and with `Memory` if out of memory.
pub fn read_networks(alloc: Global, text: &[u8]) -> Result<Vec<Network>, NetworksFault>
    ensures networks { IfOk result (λ networks. AreNetworks text.now networks.items) }
    ensures fault { IfErr result (NetworksFail text.now) }
{
    let lines = lines_of(alloc, text)?;
    let lines = lines.as_slice();
    let mut networks = Vec::new(alloc);
    'lines: for place in 0..lines.len() {
        match take_network(alloc, lines[place], &mut networks) {
            Ok(()) => {}
            Err(refused) => return Err(fault_at(place + 1, refused)),
        }
    }
    if networks.is_empty() {
        return Err(NetworksFault::NoNetwork);
    }
    Ok(networks)
}

/// Takes a line of the file.
fn take_network(alloc: Global, text: &[u8], networks: &mut Vec<Network>) -> Result<(), NotNamed>
    ensures ok { OnOk result (Names networks.old.items text.now networks.new.items) }
    ensures err { IfErr result (IsRefusedFor (NamesNone networks.old.items text.now)) }
{
    let Some(words) = fields_said(alloc, said(text))? else {
        return Ok(());
    };
    if networks.len() >= NETWORKS_MOST {
        return Err(NotNamed::Line(NetworkFault::Many));
    }
    let network = match network_of(words.as_slice()) {
        Ok(network) => network,
        Err(fault) => return Err(NotNamed::Line(fault)),
    };
    networks.push(network)?;
    Ok(())
}

/// The network that the words of a line spell.
fn network_of(words: &[&[u8]]) -> Result<Network, NetworkFault>
    ensures ok { IfOk result (SpellsOne (texts words.now)) }
    ensures err { IfErr result (MisspellsOne (texts words.now)) }
{
    match words {
        [word] => network_in(word),
        _ => Err(NetworkFault::Words),
    }
}

/// The network that one word spells.
fn network_in(word: &[u8]) -> Result<Network, NetworkFault>
    ensures ok { IfOk result (SpellsOne (word.now ∷ [])) }
    ensures err { IfErr result (MisspellsOne (word.now ∷ [])) }
{
    match read_network(word) {
        Some(network) => Ok(network),
        None => Err(NetworkFault::Network),
    }
}

/// Why a file isn't read whose line of this number isn't taken.
fn fault_at(number: usize, refused: NotNamed) -> NetworksFault
    ensures { result ≡ fault_at number refused }
{
    match refused {
        NotNamed::Line(fault) => NetworksFault::Line(number, fault),
        NotNamed::Memory => NetworksFault::Memory,
    }
}
