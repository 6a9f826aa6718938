//! Callers at once on one hall, behind each of the two locks. Each run ends with how many calls the hall has.
ghost use Rattle.std.specs.Prelude.{◌≢◌, ◌<◌, length};
ghost use Rattle.std.specs.List.{AllPairs};

use fr_bytes::NoMemory;
use fr_digest::Sha;
use std::alloc::Global;
use std::sync::{Mutex, Wait};
use std::thread;
use std::thread::Threads;
use text_hall::{Numbers, TextHall, opened, write_all};

// The only caller who may write empty texts; nobody does.
const OWNER: u32 = 0;

fn count(hall: TextHall<Sha>) -> u64 {
    let mut calls = hall.into_calls();
    let mut count = 0u64;
    while let Some(_call) = calls.pop() {
        count = count.wrapping_add(1);
    }
    count
}

/// Behind the turn lock. Err means want of memory.
pub fn at_gate<R: Threads + Wait + Sync>(
    rt: &R,
    alloc: Global,
    callers: &[u32],
    numbers: Numbers,
) -> Result<u64, NoMemory>
    requires some { 0 < length callers.now }
    requires apart { AllPairs (λ c d. c ≢ d) callers.now }
{
    let (gate, mut seats) = opened(alloc, TextHall::<Sha>::new(OWNER, false), callers)?;
    write_all(rt, alloc, &gate, callers, numbers, seats.as_mut_slice());
    Ok(count(gate.close(seats)))
}

// What a turn does, under the `Mutex`.
fn write<R: Wait>(
    rt: &R,
    alloc: Global,
    hall: &Mutex<TextHall<Sha>>,
    caller: u32,
    numbers: Numbers,
) {
    for place in 0..numbers.many {
        let Ok(slip) = numbers.slip(alloc, caller, place) else {
            return;
        };
        let mut guard = hall.lock(rt);
        let _reply = guard.write(slip);
        let _root = guard.root();
    }
}

/// Behind std's `Mutex`.
pub fn at_mutex<R: Threads + Wait + Sync>(
    rt: &R,
    alloc: Global,
    callers: &mut [u32],
    numbers: Numbers,
) -> u64 {
    let hall = Mutex::new(TextHall::<Sha>::new(OWNER, false));
    let each = |_i: usize, caller: &mut u32| { write(rt, alloc, &hall, *caller, numbers) };
    thread::for_each_mut(rt, callers, 16, &each);
    count(hall.into_inner())
}
