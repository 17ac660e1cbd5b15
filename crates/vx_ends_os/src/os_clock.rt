ghost use Rattle.std.specs.Prelude.{⊤};

use std::rt::Clock as TimeSource;
use std::thread;
use std::time::Duration;
use vx_ends::Clock;

/// The time of the system, in milliseconds since the clock was made. It says of each moment that it gave it.
#[derive(Drop)]
pub struct OsClock {
    rt: HostRuntime,
    start: Duration,
}

impl OsClock {
    /// A clock that stands at 0 now.
    pub fn new(rt: HostRuntime) -> Self {
        let start = rt.monotonic().unwrap_or(Duration::ZERO);
        OsClock { rt, start }
    }
}

impl Clock for OsClock {
    ghost gave = { λ _ _. ⊤ };

    fn now(&self) -> u64 {
        let passed = match self.rt.monotonic() {
            Ok(now) => now.saturating_sub(self.start),
            Err(_) => Duration::ZERO,
        };
        let whole = passed.as_secs().saturating_mul(1000);
        whole.saturating_add(u64::from(passed.subsec_millis()))
    }

    fn rest(&self, until: u64) {
        let wait = until.saturating_sub(self.now());
        if wait > 0 {
            thread::sleep(&self.rt, Duration::from_millis(wait));
        }
    }
}
