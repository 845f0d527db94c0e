//! The clocks of a scene.

use crate::scene::stage::Stage;
use nbt_lease::Moment;
use nbt_port::Clock;
use std::time::Duration;
use std::{io, time};

/// The steady clock of a scene.
#[derive(Drop)]
pub struct Steady<'s, 'a>(pub &'s Stage<'a>);

impl Clock for Steady<'_, '_> {
    ghost use Rattle.std.specs.Prelude.{⊤};

    ghost tells = { λ _ _ _. ⊤ };

    fn now(&mut self) -> Moment {
        self.0.now()
    }
}

/// The time of day of a scene.
#[derive(Drop)]
pub struct Day<'s, 'a>(pub &'s Stage<'a>);

impl Clock for Day<'_, '_> {
    ghost use Rattle.std.specs.Prelude.{⊤};

    ghost tells = { λ _ _ _. ⊤ };

    fn now(&mut self) -> Moment {
        self.0.day()
    }
}

/// The machine of a scene, on which one sleeps.
#[derive(Drop)]
pub struct Sleeper<'s, 'a>(pub &'s Stage<'a>);

impl time::Clock for Sleeper<'_, '_> {
    fn monotonic(&self) -> io::Result<Duration> {
        Ok(Duration::from_millis(self.0.now().get()))
    }

    fn since_1970(&self) -> io::Result<Duration> {
        Ok(Duration::from_millis(self.0.day().get()))
    }

    fn sleep(&self, duration: Duration) {
        self.0
            .sleep(u64::try_from(duration.as_millis()).unwrap_or(0))
    }
}
