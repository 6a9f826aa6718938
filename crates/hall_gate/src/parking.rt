ghost use Rattle.std.specs.Prelude.{◌<◌, ℕ, length};

use std::alloc::{AllocError, Global};
use std::hint;
use std::sync::Wait;
use std::sync::atomic::AtomicU64;
use std::sync::atomic::Ordering::SeqCst;

// How often a waiter looks again before it sleeps.
const LOOKS: u32 = 100;

const AWAKE: u64 = 0;

const ASLEEP: u64 = 1;

/// Words on which waiters sleep, one for each caller of a gate.
///
/// Who waits for a ticket sleeps on the word of that ticket. As many tickets are out as there are callers
/// at most, so that tickets that are out together have words of their own, and a served ticket wakes its
/// waiter alone. Nothing that a gate promises rests on these words: they only spare processor time.
#[derive(Drop)]
pub struct Parking {
    words: Vec<AtomicU64>,
    ghost some: { 0 < length words.items },
}

impl Parking {
    /// Words for so many callers. Err means want of memory.
    pub fn new(alloc: Global, callers: usize) -> Result<Parking, AllocError>
        requires { 0 < callers }
    {
        let mut words = Vec::with_capacity(alloc, callers)?;
        for _ in 0..callers {
            words.push_reserved(AtomicU64::new(AWAKE));
        }
        Ok(Parking { words })
    }

    fn word(&self, ticket: u64) -> &AtomicU64 {
        &self.words[(ticket % self.words.len() as u64) as usize]
    }

    /// To be called before each look at the ticket that is served: where the waiter is about to sleep after
    /// a look in vain, who serves its ticket later than that look finds it announced.
    pub fn announce(&self, ticket: u64, looks: u32) {
        if looks >= LOOKS {
            self.word(ticket).store(ASLEEP, SeqCst);
        }
    }

    /// To be called after each look in vain. Sleeps until the ticket is served, but not after the first looks.
    /// It may return early.
    pub fn pause<R: Wait>(&self, rt: &R, ticket: u64, looks: u32) {
        if looks >= LOOKS {
            self.word(ticket).park(rt, ASLEEP as u32);
        } else {
            hint::spin_loop();
        }
    }

    /// Wakes who sleeps until this ticket is served. It takes a call of the system only where somebody may sleep.
    pub fn wake(&self, ticket: u64) {
        let word = self.word(ticket);
        if word.swap(AWAKE, SeqCst) == ASLEEP {
            word.wake_all();
        }
    }
}
