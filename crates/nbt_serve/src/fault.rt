//! Which device of a server failed.

ghost use Rattle.std.specs.Prelude.{◌≡◌};

use nbt_port::Device;
use nbt_store::Broken;

/// Which device of a server that keeps its leases failed.
#[derive(Clone, Copy, Debug, PartialEq, Eq)]
pub enum KeepFault {
    /// The port: at a receive, or at the send of a reply, which is lost.
    Port,
    /// The store.
    Store,
}

impl From<Device> for KeepFault {
    ghost use Rattle.nbt_serve.specs.declared.fault.KeepFault.TheVariants.{Port};

    ghost from_gives = { λ _ result. result ≡ Port };

    fn from(_failure: Device) -> KeepFault {
        KeepFault::Port
    }
}

impl From<Broken> for KeepFault {
    ghost use Rattle.nbt_serve.specs.declared.fault.KeepFault.TheVariants.{Store};

    ghost from_gives = { λ _ result. result ≡ Store };

    fn from(_failure: Broken) -> KeepFault {
        KeepFault::Store
    }
}
