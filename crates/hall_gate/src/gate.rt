ghost use Rattle.std.specs.Prelude.{◌≡◌, ◌<◌, length};

use super::parking::Parking;
use super::rule::{TurnRule, View};
use super::turned::Turned;
use atomic_table::Table;
use std::alloc::Global;

pub type TurnTable<T> = Table<
    Option<T>,
    View<<T as Turned>::Fixed, <T as Turned>::Entry>,
    Vec<u32>,
    TurnRule<T>,
    Global,
>;

/// A ticket lock round a value: callers take turns at it in the order in which they drew their tickets,
/// and never find it busy or poisoned.
///
/// The value comes back by `close`. Where it may be dropped, so may the gate.
pub struct Gate<T: Turned> {
    pub(crate) table: TurnTable<T>,
    pub(crate) parking: Parking,
    ghost shape: { (table.shared.table_id.words ≡ 2) × (table.shared.table_id.slots ≡ 1) × (0 < length table.shared.key.items) },
}

impl<T: Turned> Gate<T> {
    pub(crate) fn into_table(self) -> TurnTable<T>
        ensures { result ≡ self.table }
    {
        let Gate { table, parking } = self;
        drop(parking);
        table
    }
}

impl<T: Turned + Drop> Drop for Gate<T> {
    fn drop(self) {
        let Gate { table, parking } = self;
        drop(table);
        drop(parking);
    }
}
