//! Room for all that a server may have, and keys by which it finds names.

ghost use Rattle.std.specs.Prelude.{◌≡◌};

use nbt_server::Server;
use std::alloc::AllocError;
use std::hash::RandomState;
use std::io;
use std::io::Write;
use std::random::RandomSource;

/// Takes room for as many names as the server may have leases, and has it find names by keys that the system draws: whoever doesn't know
/// them can't choose names that are found slowly. Where the system draws none, a line in `errors` says so, and the server is left as it
/// is. A failure to write that is ignored.
pub(crate) fn make_room<M: RandomSource, E: Write>(
    machine: &M,
    server: &mut Server,
    errors: &mut E,
) -> Result<(), AllocError>
    ensures { server.new ≡ server.old }
{
    match RandomState::new(machine) {
        Ok(keys) => server.make_room(keys),
        Err(error) => {
            let _ = tell_no_keys(error, errors);
            Ok(())
        }
    }
}

fn tell_no_keys<E: Write>(error: io::Error, errors: &mut E) -> io::Result<()> {
    writeln!(
        errors,
        "nbt: the system gives no random keys, so names may be chosen that are found slowly: {error}"
    )?;
    errors.flush()
}
