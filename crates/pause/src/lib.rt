// A short wait.
#![tactic(auto)]

use std::rt::Clock;
use std::thread;
use std::time::Duration;

// Waits for about a millisecond.
pub fn short_sleep(clock: &impl Clock) {
    thread::sleep(clock, Duration::from_millis(1));
}
