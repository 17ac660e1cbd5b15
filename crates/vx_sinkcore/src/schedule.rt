ghost use Rattle.std.specs.Prelude.{◌≡◌, ◌*◌, ◌<◌, ◌↔◌, IsNone, IfSome};
ghost use Rattle.vx_sinkcore.specs.Waits.{wait_after};

/// How long a sink waits between its attempts at a batch, and how often it tries again.
///
/// The waits grow as the numbers of Fibonacci do, up to the longest one.
#[derive(Clone, Copy, PartialEq, Eq, Debug)]
pub struct Schedule {
    /// The first wait, in seconds.
    pub initial_secs: u32,
    /// The longest wait, in seconds. The first is held to it too.
    pub max_secs: u32,
    /// How often an attempt that failed is made again.
    pub attempts: u64,
}

impl Schedule {
    /// A schedule of such waits.
    pub fn new(initial_secs: u32, max_secs: u32, attempts: u64) -> Self
        ensures { result ≡ record {
          initial_secs = initial_secs;
          max_secs = max_secs;
          attempts = attempts;
        } }
    {
        Schedule {
            initial_secs,
            max_secs,
            attempts,
        }
    }

    // The seconds between the k-th failed attempt and the next. It goes no further than waits grow: however large k is, at
    // most 48 steps, and 26 where both numbers of seconds are 1 to 86,400.
    fn seconds(&self, k: u64) -> u64
        ensures { result ≡ wait_after self.now.initial_secs self.now.max_secs k }
    {
        let longest = self.max_secs as u64;
        let mut wait = 0;
        let mut next = self.initial_secs as u64;
        for _ in 0..k {
            if wait >= longest || next == 0 {
                break;
            }
            (wait, next) = (next, wait + next);
        }
        wait.min(longest)
    }

    /// The milliseconds between the k-th failed attempt, counted from 1, and the next. None says that there is no next one.
    /// It takes no memory.
    pub fn wait(&self, k: u64) -> Option<u64>
        ensures given_up { IsNone result ↔ (self.now.attempts < k) }
        ensures milliseconds { IfSome result
            (λ wait. wait ≡ wait_after self.now.initial_secs self.now.max_secs k * 1000) }
    {
        if k > self.attempts {
            return None;
        }
        Some(self.seconds(k) * 1000)
    }
}
