//! A lookup over UDP and the system's monotonic clock.

ghost use Rattle.std.specs.Prelude.{◌≡◌, ◌≢◌, ◌++◌, ℕ, List, Err, IfOk};
ghost use Rattle.std.specs.String.{string_bytes};
ghost use Rattle.nbt_client.specs.Asking.{AsksHere, AskFailsHere};

use crate::answer::Answer;
use crate::asking::ask;
use crate::ids::random_id;
use crate::question::Question;
use nbt_name::Addr;
use nbt_port::{Fault, Port, bound_port, steady_clock, tell_end_of};
use std::io::Write;
use std::net::Net;
use std::random::RandomSource;
use std::time;

/// Looks up from the address `own` of this system, as [`ask`] does, by an id that [`random_id`] returns; for 0.0.0.0:0 the system chooses
/// address and port. Refused: `NoPort` where the port can't be bound, or the system gives no id; then `NoClock` where the clock can't be read; `Device` and `Memory` as [`ask`] is, and `Device` at
/// the first request that has no route too. Nothing is
/// appended, except where it is out of memory. Of each but `Memory` a line in `errors` says which call of the system failed,
/// for which address, and why; a failure to write it is ignored.
pub fn ask_here<M: Net + time::Clock + RandomSource, E: Write>(
    machine: &M,
    own: Addr,
    question: &Question,
    patience: u32,
    out: &mut String,
    errors: &mut E,
) -> Result<Answer, Fault>
    ensures ok { IfOk result (λ answer. (text : List ℕ) × AsksHere own question.now patience answer text × (string_bytes out.new ≡ string_bytes out.old ++ text)) }
    ensures device { result ≡ Err Fault.Device → AskFailsHere own question.now patience × (string_bytes out.new ≡ string_bytes out.old) }
    ensures port { result ≡ Err Fault.NoPort → string_bytes out.new ≡ string_bytes out.old }
    ensures clock { result ≡ Err Fault.NoClock → string_bytes out.new ≡ string_bytes out.old }
    ensures output { result ≢ Err Fault.Output }
{
    let mut port = bound_port(machine, own, errors).map_err(|_| Fault::NoPort)?;
    let first_id = random_id(machine, errors)?;
    let mut clock = steady_clock(machine, own, errors)?;
    port.be_strict();
    let asked = ask(
        &mut port, &mut clock, own, first_id, question, patience, out,
    );
    tell_end_of(asked.err(), port.cause(), errors);
    asked
}
