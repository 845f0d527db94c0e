//! The port of a scene.

ghost use Rattle.std.specs.Prelude.{◌≡◌};
ghost use Rattle.nbt_port.specs.PortCalls.{one_more};

use crate::scene::stage::Stage;
use arrayvec::ArrayVec;
use nbt_port::{Device, Port, Route};

/// A port whose calls are the scene's.
#[derive(Drop)]
pub struct ScenePort<'s, 'a> {
    stage: &'s Stage<'a>,
    failures: u64,
}

impl<'s, 'a> ScenePort<'s, 'a> {
    pub fn new(stage: &'s Stage<'a>) -> ScenePort<'s, 'a>
        ensures { result.failures ≡ 0 }
    {
        ScenePort { stage, failures: 0 }
    }
}

/// One failure more, up to 2^64 - 1.
fn one_more(count: u64) -> u64
    ensures { result ≡ one_more count }
{
    count.saturating_add(1)
}

impl Port for ScenePort<'_, '_> {
    ghost use Rattle.std.specs.Prelude.{⊤};

    ghost does = { λ _ _ _. ⊤ };

    ghost failures = { λ port. port.failures };

    fn receive(&mut self, octets: &mut ArrayVec<u8, 2048>) -> Result<Option<Route>, Device> {
        match self.stage.receive(true, octets) {
            Ok(from) => Ok(from),
            Err(_) => {
                self.failures = one_more(self.failures);
                Err(Device)
            }
        }
    }

    fn receive_now(&mut self, octets: &mut ArrayVec<u8, 2048>) -> Result<Option<Route>, Device> {
        match self.stage.receive(false, octets) {
            Ok(from) => Ok(from),
            Err(_) => {
                self.failures = one_more(self.failures);
                Err(Device)
            }
        }
    }

    fn send(&mut self, to: Route, octets: &[u8]) -> Result<(), Device> {
        match self.stage.send(to, octets) {
            Ok(()) => Ok(()),
            Err(_) => {
                self.failures = one_more(self.failures);
                Err(Device)
            }
        }
    }

    fn failures(&self) -> u64 {
        self.failures
    }
}
