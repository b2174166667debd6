// The system's clock.
ghost use Rattle.std.specs.Prelude.{◌≤◌, None, IfOk};
ghost use Rattle.edge_core.specs.Handles.{fault_count};

use edge_core::{Clock, FaultCount, LAST_MOMENT};
use std::io;
use std::time::{SystemTime, UNIX_EPOCH};

/// The system's clock. It tells nothing of the moments to come. Where it can't be read, or stands before 1970, the moment is 0
/// and the fault is counted; one past [`LAST_MOMENT`] is that.
#[derive(Drop)]
pub struct StdClock {
    rt: HostRuntime,
    faults: FaultCount,
}

impl StdClock {
    /// The clock, with a count of 0.
    pub fn new(rt: HostRuntime) -> StdClock {
        StdClock {
            rt,
            faults: FaultCount::new(),
        }
    }

    fn read(&self) -> io::Result<u64>
        ensures { IfOk result (λ moment. moment ≤ 253_402_300_799_999) }
    {
        let time = SystemTime::now(&self.rt)?;
        match time.duration_since(UNIX_EPOCH) {
            Ok(since) => Ok(
                u64::try_from(since.as_millis())
                    .unwrap_or(LAST_MOMENT)
                    .min(LAST_MOMENT),
            ),
            Err(_) => Err(io::Error::from(io::ErrorKind::InvalidData)),
        }
    }
}

impl Clock for StdClock {
    ghost coming = { λ c. None };

    ghost faults = { λ c. fault_count c.faults };

    fn now(&mut self) -> u64 {
        match self.read() {
            Ok(moment) => moment,
            Err(_) => {
                self.faults.note(true);
                0
            }
        }
    }
}
