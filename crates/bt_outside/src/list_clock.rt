//! A clock that reads a list.
ghost use Rattle.std.specs.Prelude.{◌≡◌, ◌≢◌, ◌<◌, []};
ghost use Rattle.bt_base.specs.Counts.{most};
ghost use Rattle.bt_outside.specs.Clock.{readings_of};

use crate::{Clock, Readings};
use std::marker::Model;

/// A clock that reads a list, and then its last reading again and again. It tells its readings
/// until its count of them reaches 18446744073709551615.
#[derive(Drop)]
pub struct ListClock {
    list: Readings,
    count: u64,
}

impl Model for ListClock {
    ghost use Rattle.std.specs.Prelude.{◌≢◌, []};
    ghost use Rattle.bt_outside.specs.Clock.{Ticks};

    ghost Value = { Ticks };

    ghost view = { λ c. record { readings = c.list; count = c.count } };

    ghost invariant = { λ c. c.list ≢ [] };
}

impl ListClock {
    /// A clock that has not been read yet. The list has one reading at least.
    pub fn new(readings: Readings) -> ListClock
        requires { readings ≢ [] }
        ensures { result ≡ record { readings = readings; count = 0 } }
    {
        ListClock {
            list: readings,
            count: 0,
        }
    }
}

impl Clock for ListClock {
    ghost tells = { λ c. c.count < most };

    ghost told = { λ c. readings_of c.readings c.count };

    fn now(&mut self) -> u64 {
        let readings = self.list.items();
        let last = readings.len() - 1;
        let reading = readings[(self.count as usize).min(last)];
        self.count = self.count.saturating_add(1);
        reading
    }
}
