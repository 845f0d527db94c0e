//! Names that are given back over this machine.

use super::expect::{expect, expect_eq};
use nbt_client::Want;
use nbt_host::run_release;
use nbt_name::{Addr, Kind, Name};
use nbt_port::{Fault, UdpPort};
use std::process::Abort;

const SERVER: Addr = Addr {
    ip: 0x7F000001,
    port: 137,
};

fn fred(rt: &impl Abort) -> Want {
    Want {
        name: Name::new(b"FRED            ", b"").expect(rt, "a name"),
        kind: Kind::Unique,
        ttl: 0,
    }
}

#[test]
fn nothing_is_given_back_where_a_host_runs(rt: HostRuntime) {
    let here = Addr {
        ip: 0x7F2A1704,
        port: 20_191,
    };
    let _taken = UdpPort::bind(&rt, here).expect(&rt, "bound");
    let wants = vec![in rt.alloc(); fred(&rt)].expect(&rt, "memory");
    let mut printed = Vec::new(rt.alloc());
    let mut errors = Vec::new(rt.alloc());
    let wanted = wants.as_slice();
    let all = run_release(
        &rt,
        rt.alloc(),
        here,
        SERVER,
        wanted,
        &mut printed,
        &mut errors,
    );
    expect_eq(&rt, &all, &Err(Fault::NoPort));
    expect(&rt, printed.is_empty());
    expect_eq(
        &rt,
        &str::from_utf8(errors.as_slice()).expect(&rt, "a text"),
        &"nbt: 127.42.23.4:20191: Address already in use (os error 98): a host runs there\n",
    );
}

/// There is no way to port 0: it ends at once, and it is said why.
#[test]
fn names_without_a_route_to_their_server(rt: HostRuntime) {
    let here = Addr {
        ip: 0x7F2A1704,
        port: 20_192,
    };
    let server = Addr { port: 0, ..SERVER };
    let wants = vec![in rt.alloc(); fred(&rt)].expect(&rt, "memory");
    let mut printed = Vec::new(rt.alloc());
    let mut errors = Vec::new(rt.alloc());
    let all = run_release(
        &rt,
        rt.alloc(),
        here,
        server,
        wants.as_slice(),
        &mut printed,
        &mut errors,
    );
    expect_eq(&rt, &all, &Err(Fault::Device));
    expect(&rt, printed.is_empty());
    expect_eq(
        &rt,
        &str::from_utf8(errors.as_slice()).expect(&rt, "a text"),
        &"nbt: 127.0.0.1:0: send: Invalid argument (os error 22)\n",
    );
}
