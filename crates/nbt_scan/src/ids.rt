//! The ids of a scan's requests.

ghost use Rattle.std.specs.Prelude.{◌≡◌, IfOk, length};

use nbt_client::random_octets;
use nbt_port::Fault;
use rand_chacha::ChaCha20Rng;
use rand_core::SeedableRng;
use rand_core::utils::NextWord;
use std::alloc::Global;
use std::io::Write;
use std::random::RandomSource;

/// So many ids, of a generator whose seed is of the system's source of random octets: whoever sees some of them can't guess the others.
/// Refused as [`random_octets`] is, and where it is out of memory.
pub fn random_ids<M: RandomSource, E: Write>(
    machine: &M,
    alloc: Global,
    count: usize,
    errors: &mut E,
) -> Result<Vec<u16>, Fault>
    ensures { IfOk result (λ ids. length ids.items ≡ count) }
{
    let mut seed = [0; 32];
    random_octets(machine, &mut seed, errors)?;
    let mut words = ChaCha20Rng::from_seed(seed);
    let mut ids = Vec::new(alloc);
    for _ in 0..count {
        ids.push((words.next_word() >> 16) as u16)?;
    }
    Ok(ids)
}
