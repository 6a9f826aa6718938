//! Callers that write at once, each in a thread of its own.
ghost use Rattle.std.specs.Prelude.{◌≡◌, ◌≢◌, ◌<◌, ℕ, [], length, slice_index, slice_index_or, IfOk};
ghost use Rattle.std.specs.List.{All, AllPairs};
ghost use Rattle.hall_gate.specs.Seats.{caller_of, callers_of, IsSeatOf};
ghost use Rattle.text_hall.specs.TextHall.{IsKept};

use crate::call::Slip;
use crate::hall::TextHall;
use crate::turns::answer;
use fr_bytes::{Bytes, NoMemory, put_u32};
use fr_digest::Digester;
use hall_gate::{Gate, GateSeat};
use std::alloc::Global;
use std::sync::Wait;
use std::thread;
use std::thread::Threads;

// How many threads write at most.
const THREADS: usize = 16;

/// What each caller writes: texts that are the numbers from `first` on, `many` of them, each in four bytes and
/// then `padding` zero bytes.
#[derive(Clone, Copy)]
pub struct Numbers {
    pub first: u32,
    pub many: u32,
    pub padding: usize,
}

impl Numbers {
    /// The slip of the text in place `place`. Err means want of memory.
    pub fn slip(&self, alloc: Global, caller: u32, place: u32) -> Result<Slip, NoMemory>
        ensures { IfOk result (λ slip. slip.caller ≡ caller) }
    {
        let mut text = Vec::new(alloc);
        put_u32(&mut text, self.first.wrapping_add(place))?;
        let length = text.len().saturating_add(self.padding);
        text.resize(length, 0)?;
        Slip::new(alloc, caller, Bytes::of(text))
    }
}

/// A gate round a new hall, and a seat for each of `callers`. Err means want of memory.
pub fn opened<D: Digester>(
    alloc: Global,
    hall: TextHall<D>,
    callers: &[u32],
) -> Result<(Gate<TextHall<D>>, Vec<GateSeat<TextHall<D>>>), NoMemory>
    requires some { 0 < length callers.now }
    requires apart { AllPairs (λ c d. c ≢ d) callers.now }
    requires valid { IsKept D.digest_of hall.owner hall.root hall.calls }
    requires fresh { hall.calls ≡ [] }
    ensures callers { IfOk result (λ r. (callers_of r.0 ≡ callers.now) × (length r.1.items ≡ length callers.now)
        × ((i : ℕ) (d : _) → i < length r.1.items
        → caller_of (slice_index_or r.1.items i d) ≡ slice_index callers.now i)) }
    ensures seats { IfOk result (λ r. All (IsSeatOf r.0) r.1.items) }
{
    match Gate::make(alloc, hall, callers) {
        Ok(made) => Ok(made),
        Err((refused, hall)) => {
            drop(hall);
            Err(refused)
        }
    }
}

/// All callers write at once, each in a thread of its own, and each its numbers in their order. Where memory is
/// wanting a caller writes no more.
pub fn write_all<D: Digester + Send + Sync, R: Threads + Wait + Sync>(
    rt: &R,
    alloc: Global,
    gate: &Gate<TextHall<D>>,
    callers: &[u32],
    numbers: Numbers,
    seats: &mut [GateSeat<TextHall<D>>],
)
    requires seats { All (IsSeatOf gate.now) seats.old }
    requires callers { (length seats.old ≡ length callers.now)
        × ((i : ℕ) (d : _) → i < length seats.old
        → caller_of (slice_index_or seats.old i d) ≡ slice_index callers.now i) }
    ensures seats { All (IsSeatOf gate.now) seats.new }
    ensures callers { (i : ℕ) (d : _) → i < length seats.new
        → caller_of (slice_index_or seats.new i d) ≡ slice_index callers.now i }
{
    let each = |i: usize, seat: &mut GateSeat<TextHall<D>>|
        requires { IsSeatOf gate.now seat.old × (i < length callers.now)
            × (caller_of seat.old ≡ slice_index callers.now i) }
        ensures { IsSeatOf gate.entry.now seat.new × (caller_of seat.new ≡ caller_of seat.old) }
    { write(rt, alloc, gate, callers[i], numbers, seat) };
    thread::for_each_mut(rt, seats, THREADS, &each);
}

// One caller writes its numbers.
fn write<D: Digester, R: Wait>(
    rt: &R,
    alloc: Global,
    gate: &Gate<TextHall<D>>,
    caller: u32,
    numbers: Numbers,
    seat: &mut GateSeat<TextHall<D>>,
)
    requires seat { IsSeatOf gate.now seat.old }
    requires caller { caller_of seat.old ≡ caller }
    ensures seat { IsSeatOf gate.now seat.new }
    ensures caller { caller_of seat.new ≡ caller }
{
    for place in 0..numbers.many {
        let Ok(slip) = numbers.slip(alloc, caller, place) else {
            return;
        };
        let (_reply, _root) = answer(rt, gate, seat, slip);
    }
}
