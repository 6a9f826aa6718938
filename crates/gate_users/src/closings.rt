//! All gates are closed.
ghost use Rattle.std.specs.Prelude.{◌≡◌, ◌<◌, ◌++◌, ◌∷◌, [], ℕ, length, slice_index_or, IfOk};
ghost use Rattle.std.specs.List.{All, AllZip};
ghost use Rattle.gate_users.specs.Users.{SitsAt, AreClosedOn, HasPlacesFor, HasNoStranger, TakesLast, TurnsEnd};

use crate::seats::Seats;
use fr_bytes::{NoMemory, turns_stay};
use hall_gate::{Gate, GateSeat, Turned};
use std::alloc::Global;

/// Gives the values of all gates back, in the gates' order.
///
/// Each user has one seat at each gate, in the gates' order, and they are all seats that the gates have. Err means
/// want of memory: the gates, the seats and the values are then lost.
pub fn close_users<T: Turned + Drop>(
    alloc: Global,
    mut gates: Vec<Gate<T>>,
    mut users: Vec<Seats<T>>,
) -> Result<Vec<T>, NoMemory>
    requires seats { All (SitsAt gates.items) users.items }
    requires all { All (HasPlacesFor users.items) gates.items }
    ensures valid { IfOk result (λ values. All T.valid values.items) }
    ensures closed { IfOk result (λ values. All (AreClosedOn T.fixed T.entries T.caller values.items) users.items) }
    ensures callers { IfOk result (λ values. AllZip (HasNoStranger T.entries T.caller) gates.items values.items) }
{
    let mut values = Vec::with_capacity(alloc, gates.len())?;
    while let Some(gate) = gates.pop() {
        let seats = last_seats(alloc, &mut users)?;
        values.push_reserved(gate.close(seats));
    }
    values.reverse();
    Ok(values)
}

// Takes the last seat of each user.
fn last_seats<T: Turned>(
    alloc: Global,
    users: &mut Vec<Seats<T>>,
) -> Result<Vec<GateSeat<T>>, NoMemory>
    requires { All (λ user. 0 < length user.seats.items) users.old.items }
    ensures { IfOk result (λ seats. TakesLast users.old.items users.new.items seats.items) }
{
    let mut seats = Vec::with_capacity(alloc, users.len())?;
    for i in 0..users.len() {
        let Some(seat) = users[i].seats.pop() else {
            unreachable!()
        };
        seats.push_reserved(seat);
    }
    Ok(seats)
}

/// When its gate is closed, a seat's caller has no more turns in the value's entries than the seat had seen. `L` is
/// what a list of entries leads to, step by step.
pub fn turns_end<T: Turned, L>()
    ensures { TurnsEnd T T.Slip T.Answer T.Seen T.Entry T.Ask T.Fixed L T.fixed T.entries T.caller }
{
    turns_stay::<T::Entry, L>();
}
