//! A script to which memory is refused. `nbt_cases` plays the others.

use super::expect::expect;
use nbt_sim::play;

/// `rt try --test --fail-alloc N` refuses the Nth allocation: the script ends there, or the server loses a datagram,
/// and what was printed before is as with all the memory there is.
#[test]
fn refused_memory_ends_a_script_or_loses_a_datagram(rt: HostRuntime) {
    let script =
        b"config 1000 60 4096 2\nstart s\nstart n1\nat 60000\nask n1 FRED unique 60\ndeliver 0\n";
    let mut out = String::new(rt.alloc());
    let got = play(script, &mut out);
    let printed = out.as_bytes();
    let whole = b"ok\nok\nsent 0\nsent 1\n".as_slice();
    match got {
        Ok(well) => {
            expect(&rt, &printed, well);
            let lost = b"ok\nok\nsent 0\nlost\n".as_slice();
            expect(&rt, &printed, printed == whole || printed == lost);
        }
        Err(_) => expect(&rt, &printed, whole.starts_with(printed)),
    }
}
