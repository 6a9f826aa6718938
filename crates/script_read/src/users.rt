ghost use Rattle.std.specs.Prelude.{◌≡◌, []};
ghost use Rattle.serde_json.specs.View.{view, items_view};
ghost use Rattle.script_read.specs.Refusal.{Gives};
ghost use Rattle.script_read.specs.Elements.{each};
ghost use Rattle.script_read.specs.Users.{has_user, user_of};
ghost use Rattle.script_read.specs.Script.{users_of};

use crate::elements::elements;
use crate::object::Object;
use crate::refusal::{ScriptRefusal, field};
use crate::script::ScriptUser;
use serde_json::Value;
use std::alloc::Global;

/// Whether one of the users has the number.
pub(crate) fn has_user(users: &[ScriptUser], number: u32) -> bool
    ensures { result ≡ has_user users.now number }
{
    users.iter().any(|user| user.user == number)
}

/// A user behind those that were read before it.
#[tactic(auto, using(crate::proofs::Steps::passed), unfolding(crate::specs::Users::user_of))]
fn read_user(
    alloc: Global,
    before: &[ScriptUser],
    value: &Value,
) -> Result<ScriptUser, ScriptRefusal>
    ensures { Gives (λ user. user) result (user_of before.now (view value.now)) }
{
    let object = Object::of(alloc, value, "users")?;
    let user = object.listed("user")?;
    if has_user(before, user) {
        return Err(field(alloc, "user"));
    }
    let private = object.digits("private")?;
    let id = object.digits("id")?;
    let lms = object.within("lms", 5, 6)?;
    let ots = object.within("ots", 1, 4)?;
    let secret = object.digits("secret")?;
    let rogue = object.flag("rogue")?;
    object.no_further(7)?;
    Ok(ScriptUser {
        user,
        private,
        id,
        lms,
        ots,
        secret,
        rogue,
    })
}

fn read_all_users(alloc: Global, list: &[Value]) -> Result<Vec<ScriptUser>, ScriptRefusal>
    ensures { Gives (λ users. users.items) result (each user_of [] (items_view list.now)) }
{
    elements(alloc, list, |before, value| read_user(alloc, before, value))
}

/// The users of a script: 1 to 32.
#[tactic(auto, using(crate::proofs::Steps::passed), unfolding(crate::specs::Script::users_of))]
pub(crate) fn read_users(script: &Object<'_>) -> Result<Vec<ScriptUser>, ScriptRefusal>
    ensures { Gives (λ users. users.items) result (users_of (view script.now.value.now)) }
{
    let list = script.list_within("users", 1, 32)?;
    read_all_users(script.alloc, list)
}
