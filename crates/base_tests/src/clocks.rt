//! Clocks of one moment, and over what the system reads.

use outside::{Clock, MemoryClock, SystemClock};
use std::io::{self, ErrorKind};
use std::time::{self, Duration};

/// What is read of a system's clock, or that it fails.
#[derive(Clone, Copy)]
struct Reading {
    passed: Option<Duration>,
}

impl time::Clock for Reading {
    fn monotonic(&self) -> io::Result<Duration> {
        self.since_1970()
    }

    fn since_1970(&self) -> io::Result<Duration> {
        match self.passed {
            Some(passed) => Ok(passed),
            None => Err(io::Error::from(ErrorKind::Unsupported)),
        }
    }
}

/// Whether a clock tells this moment each time.
fn tells(clock: &impl Clock, moment: u64) -> bool {
    clock.now() == moment && clock.now() == moment
}

#[test]
fn a_clock_in_memory_tells_its_moment(rt: HostRuntime) {
    for moment in [0, 1_774_958_400, u64::MAX] {
        assert!(rt; tells(&MemoryClock::new(moment), moment));
    }
}

#[test]
fn the_clock_of_the_system_tells_whole_seconds_and_0_where_it_fails(rt: HostRuntime) {
    let cases = [
        (Some(Duration::ZERO), 0),
        (
            Some(Duration::new(1_774_958_400, 999_999_999)),
            1_774_958_400,
        ),
        (Some(Duration::new(u64::MAX, 0)), u64::MAX),
        (None, 0),
    ];
    for (passed, moment) in cases {
        assert!(rt; tells(&SystemClock::new(&Reading { passed }), moment));
    }
}
