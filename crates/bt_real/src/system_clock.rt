//! The clock of the system.
ghost use Rattle.std.specs.Prelude.{[]};

use bt_outside::Clock;
use std::rt;
use std::time::SystemTime;

/// Microseconds since 1970. Where the clock cannot be read, or reads before 1970, it answers its
/// last reading, which is 0 at first. It tells no readings.
#[derive(Drop)]
pub struct SystemClock<'r, R: rt::Clock> {
    rt: &'r R,
    last: u64,
}

impl<'r, R: rt::Clock> SystemClock<'r, R> {
    /// The system's clock. It is not read yet.
    pub fn new(rt: &'r R) -> SystemClock<'r, R> {
        SystemClock { rt, last: 0 }
    }
}

fn micros_now(rt: &impl rt::Clock) -> Option<u64> {
    let now = SystemTime::now(rt).ok()?;
    let since = now.duration_since(SystemTime::UNIX_EPOCH).ok()?;
    u64::try_from(since.as_micros()).ok()
}

impl<R: rt::Clock> Clock for SystemClock<'_, R> {
    ghost tells = { λ _. ⊥ };

    ghost told = { λ _. [] };

    fn now(&mut self) -> u64 {
        if let Some(reading) = micros_now(self.rt) {
            self.last = reading;
        }
        self.last
    }
}
