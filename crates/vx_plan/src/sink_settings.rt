ghost use Rattle.std.specs.Prelude.{◌≡◌, IfOk};

use crate::stage::StageList;
use std::alloc::Global;
use vx_value::WantOfMemory;

/// The options that every sink has.
#[derive(Drop)]
pub struct SinkSettings {
    /// Whether batches wait for what becomes of them here before they are confirmed to their source.
    pub acknowledgements: bool,
    /// The stages of its buffer, 1 to 8.
    pub buffer: StageList,
    /// How many events it writes at once, at most: 1 to 10,000.
    pub batch_max_events: u32,
    /// How long, in seconds, an event waits for others that are written with it: 1 to 86,400.
    pub batch_timeout_secs: u32,
    /// How often a write that failed is tried again.
    pub request_retry_attempts: u64,
    /// The wait before the first retry, in seconds: 1 to 86,400.
    pub request_retry_initial_backoff_secs: u32,
    /// The longest wait before a retry, in seconds: 1 to 86,400.
    pub request_retry_max_duration_secs: u32,
}

impl SinkSettings {
    /// The same options once more.
    pub fn copy(&self, alloc: Global) -> Result<Self, WantOfMemory>
        ensures { IfOk result (λ copy. copy ≡ self.now) }
    {
        Ok(SinkSettings {
            acknowledgements: self.acknowledgements,
            buffer: copy_stages(alloc, &self.buffer)?,
            batch_max_events: self.batch_max_events,
            batch_timeout_secs: self.batch_timeout_secs,
            request_retry_attempts: self.request_retry_attempts,
            request_retry_initial_backoff_secs: self.request_retry_initial_backoff_secs,
            request_retry_max_duration_secs: self.request_retry_max_duration_secs,
        })
    }
}

/// The same stages once more.
fn copy_stages(alloc: Global, stages: &StageList) -> Result<StageList, WantOfMemory>
    ensures { IfOk result (λ copies. copies ≡ stages.now) }
{
    let mut copies = StageList::new(alloc);
    for stage in stages.as_slice() {
        copies.push(*stage).map_err(|_| WantOfMemory)?;
    }
    Ok(copies)
}
