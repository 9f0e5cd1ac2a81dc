//! Looking again for what another thread does.

use std::sync::Wait;
use std::thread;
use std::thread::Parker;
use std::time::Duration;

// After so many looks in vain one sleeps between two of them.
const LOOKS: u32 = 256;

// How long, in microseconds. It bounds what an idle writer adds to the wait of a settle.
const NAP: u64 = 50;

/// How often one has looked in vain. At first one gives way to other threads alone, then one sleeps.
#[derive(Drop)]
pub(crate) struct Patience {
    looks: u32,
    parker: Parker,
}

impl Patience {
    pub(crate) fn new() -> Patience {
        Patience {
            looks: 0,
            parker: Parker::new(),
        }
    }

    /// Waits a little.
    pub(crate) fn wait<R: Wait>(&mut self, rt: &R) {
        if self.looks < LOOKS {
            self.looks += 1;
            thread::yield_now();
        } else {
            self.parker.park_timeout(rt, Duration::from_micros(NAP));
        }
    }
}
