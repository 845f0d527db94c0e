//! Ids that nobody can guess.

ghost use Rattle.std.specs.Prelude.{◌≡◌, IfErr};

use nbt_port::Fault;
use std::io;
use std::io::Write;
use std::random::RandomSource;

/// An id by which requests begin, as [`random_octets`] gives it: whoever doesn't see the requests can't guess it, and so can't forge a
/// reply.
pub fn random_id<M: RandomSource, E: Write>(machine: &M, errors: &mut E) -> Result<u16, Fault>
    ensures { IfErr result (λ fault. fault ≡ Fault.NoPort) }
{
    let mut octets = [0; 2];
    random_octets(machine, &mut octets, errors)?;
    Ok(u16::from_be_bytes(octets))
}

/// Leaves in `octets` what the system's source of random octets gives. Refused with `NoPort` where it gives none, since no port is of use
/// then: a line in `errors` says why. A failure to write it is ignored.
pub fn random_octets<M: RandomSource, E: Write>(
    machine: &M,
    octets: &mut [u8],
    errors: &mut E,
) -> Result<(), Fault>
    ensures { IfErr result (λ fault. fault ≡ Fault.NoPort) }
{
    match machine.fill_bytes(octets) {
        Ok(()) => Ok(()),
        Err(error) => {
            let _ = write_reason(error, errors);
            Err(Fault::NoPort)
        }
    }
}

fn write_reason<E: Write>(error: io::Error, errors: &mut E) -> io::Result<()> {
    writeln!(
        errors,
        "nbt: the system gives no random id, without which replies could be forged: {error}"
    )?;
    errors.flush()
}
