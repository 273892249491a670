//! How long something took.
use std::time::{Clock, Instant};

/// When something began, for a histogram that is told microseconds and shown in seconds. A clock that fails loses no count: what
/// it would have timed is told as 0 microseconds.
#[derive(Clone, Copy, Debug)]
pub struct Timer {
    start: Option<Instant>,
}

impl Timer {
    /// It begins now.
    pub fn start(clock: &impl Clock) -> Timer {
        let start = Instant::now(clock).ok();
        Timer { start }
    }

    /// How many microseconds have passed since then; 0 where the clock has failed.
    pub fn micros(&self, clock: &impl Clock) -> u64 {
        let Some(start) = self.start else {
            return 0;
        };
        match start.elapsed(clock) {
            Ok(took) => took.as_micros().min(u128::from(u64::MAX)) as u64,
            Err(_) => 0,
        }
    }
}
