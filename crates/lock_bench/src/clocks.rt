//! Time, and processor time of all threads.
use fr_digest::{Digester, Sha};
use std::alloc::Global;
use std::io;
use std::time::{Clock, CpuClock, Instant};

/// A moment, and how much processor time was used till then.
#[derive(Clone, Copy)]
pub struct Begin {
    at: Instant,
    used: u128,
}

/// Nanoseconds that a run took.
#[derive(Clone, Copy)]
pub struct Spent {
    pub time: u128,
    pub processor: u128,
}

impl Begin {
    pub fn now<R: Clock + CpuClock>(rt: &R) -> io::Result<Begin> {
        let used = rt.process_cpu_time()?.as_nanos();
        let at = Instant::now(rt)?;
        Ok(Begin { at, used })
    }

    pub fn spent<R: Clock + CpuClock>(self, rt: &R) -> io::Result<Spent> {
        let Begin { at, used } = self;
        let time = at.elapsed(rt)?.as_nanos();
        let processor = rt.process_cpu_time()?.as_nanos().saturating_sub(used);
        Ok(Spent { time, processor })
    }
}

// How many bytes are digested to see how fast that is, and how often.
const SAMPLE: usize = 10_000;

const ROUNDS: u32 = 200;

/// How many bytes a text has whose digest takes a processor so many nanoseconds.
pub fn length_of<R: CpuClock>(rt: &R, alloc: Global, nanoseconds: u128) -> io::Result<usize> {
    let mut sample = Vec::new(alloc);
    sample.resize(SAMPLE, 0u8)?;
    let begin = rt.thread_cpu_time()?.as_nanos();
    for _ in 0..ROUNDS {
        sample[0] = Sha::digest(&sample)[0];
    }
    let all = rt.thread_cpu_time()?.as_nanos().saturating_sub(begin);
    let one = (all / u128::from(ROUNDS)).max(1);
    let length = nanoseconds.saturating_mul(SAMPLE as u128) / one;
    Ok(usize::try_from(length).unwrap_or(SAMPLE))
}
