ghost use Rattle.std.specs.Prelude.{List, [], ⊤};
ghost use Rattle.serde_json.specs.Data.{Data};
ghost use Rattle.serde_json.specs.View.{view, items_view};
ghost use Rattle.script_read.specs.Refusal.{Checked, Gives};
ghost use Rattle.script_read.specs.Elements.{each, every};

use crate::refusal::ScriptRefusal;
use serde_json::Value;
use std::alloc::Global;

/// The elements of a list, each read behind those before it, or the first refusal.
pub(crate) fn elements<T: Drop, F: Fn(&[T], &Value) -> Result<T, ScriptRefusal>>(
    alloc: Global,
    list: &[Value],
    read: F,
) -> Result<Vec<T>, ScriptRefusal>
    requires { F.IsAlwaysCallable read }
    ensures { (one : List T → Data → Checked T)
        → ((before : _) (value : _) (r : _) → F.post read before value r
        → Gives (λ x. x) r (one before.now (view value.now)))
        → Gives (λ v. v.items) result (each one [] (items_view list.now)) }
{
    let mut done = Vec::new(alloc);
    for value in list {
        match read(done.as_slice(), value) {
            Ok(element) => done.push(element)?,
            Err(refusal) => return Err(refusal),
        }
    }
    Ok(done)
}

/// Checks each element, and gives the first refusal.
pub(crate) fn every<T, F: Fn(&T) -> Result<(), ScriptRefusal>>(
    items: &[T],
    check: F,
) -> Result<(), ScriptRefusal>
    requires { F.IsAlwaysCallable check }
    ensures { (one : T → Checked ⊤)
        → ((x : _) (r : _) → F.post check x r → Gives (λ u. u) r (one x.now))
        → Gives (λ u. u) result (every one items.now) }
{
    for item in items {
        match check(item) {
            Ok(()) => {}
            Err(refusal) => return Err(refusal),
        }
    }
    Ok(())
}
