//! Users meet at all gates.
ghost use Rattle.std.specs.Prelude.{◌≡◌, ◌<◌, ◌≤◌, length, vec_len, vec_capacity};
ghost use Rattle.std.specs.List.{All, AllZip};
ghost use Rattle.gate_users.specs.Users.{SitsAt, HaveSeenMore, KnowsOf, HaveLegal};

use crate::seats::Seats;
use hall_gate::{Gate, Turned};

/// All users meet, at each gate: what each has then seen of a gate's history begins with what every user, itself
/// included, had seen of it before.
///
/// Each user has one seat at each gate, in the gates' order. The seats are the same afterwards, and none has a
/// new entry of its own caller. With two users or more each front is legal for the fixed part of the value
/// behind its gate; who is alone meets nobody. It takes no memory, and doesn't wait for turns.
///
/// The last user meets each of the others, at each gate, and then each once more: two times the number of
/// gates times the number of other users.
pub fn meet_users<T: Turned>(gates: &[Gate<T>], users: &mut Vec<Seats<T>>)
    requires seats { All (SitsAt gates.now) users.old.items }
    ensures seats { All (SitsAt gates.now) users.new.items }
    ensures same { AllZip (HaveSeenMore T.caller) users.old.items users.new.items }
    ensures met { All (λ user. All (λ other. KnowsOf other user) users.old.items) users.new.items }
    ensures legal { 1 < length users.old.items → All (HaveLegal T.legal) users.new.items }
    ensures alone { length users.old.items ≤ 1 → users.new.items ≡ users.old.items }
{
    if users.len() <= 1 {
        return;
    }
    let Some(mut hub) = users.pop() else {
        unreachable!()
    };
    meet_others(gates, &mut hub, users); // The hub is told of all that was seen,
    meet_others(gates, &mut hub, users); // and tells of it.
    users.push_reserved(hub);
}

// One user meets each of the others.
fn meet_others<T: Turned>(gates: &[Gate<T>], hub: &mut Seats<T>, others: &mut Vec<Seats<T>>)
    requires hub { SitsAt gates.now hub.old }
    requires others { All (SitsAt gates.now) others.old.items }
    ensures seats { SitsAt gates.now hub.new × All (SitsAt gates.now) others.new.items }
    ensures hub_sees { HaveSeenMore T.caller hub.old hub.new × All (λ other. KnowsOf other hub.new) others.old.items }
    ensures others_see { AllZip (HaveSeenMore T.caller) others.old.items others.new.items
        × All (KnowsOf hub.old) others.new.items }
    ensures legal { All (HaveLegal T.legal) others.new.items
        × (0 < length others.old.items → HaveLegal T.legal hub.new) }
    ensures room { (vec_len others.new ≡ vec_len others.old) × (vec_capacity others.new ≡ vec_capacity others.old) }
{
    for i in 0..others.len() {
        meet_at_all(gates, hub, &mut others[i]);
    }
}

// Two users meet at each gate.
fn meet_at_all<T: Turned>(gates: &[Gate<T>], a: &mut Seats<T>, b: &mut Seats<T>)
    requires a { SitsAt gates.now a.old }
    requires b { SitsAt gates.now b.old }
    ensures seats { SitsAt gates.now a.new × SitsAt gates.now b.new }
    ensures a_sees { HaveSeenMore T.caller a.old a.new × KnowsOf b.old a.new }
    ensures b_sees { HaveSeenMore T.caller b.old b.new × KnowsOf a.old b.new }
    ensures legal { HaveLegal T.legal a.new × HaveLegal T.legal b.new }
{
    for k in 0..gates.len() {
        let Ok(()) = gates[k].meet(&mut a.seats[k], &mut b.seats[k]) else {
            unreachable!()
        };
    }
}
