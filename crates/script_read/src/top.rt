ghost use Rattle.std.specs.Prelude.{◌≡◌, codes};
ghost use Rattle.serde_json.specs.View.{view};
ghost use Rattle.script_read.specs.Refusal.{Gives};
ghost use Rattle.script_read.specs.Fields.{word};
ghost use Rattle.script_read.specs.Script.{digest_words, walked};
ghost use Rattle.script_read.specs.Reading.{script_of, json_of, script_at};

use crate::known::all_known;
use crate::object::Object;
use crate::phases::read_phases;
use crate::refusal::{ScriptRefusal, field, limit};
use crate::script::{DigestName, Script};
use crate::tamper::read_lines;
use crate::users::read_users;
use crate::walls::read_walls;
use crate::writes::signs_enough;
use fr_bytes::Sequence;
use serde_json::Value;
use std::alloc::Global;

/// How many bytes a script has at most.
const SCRIPT_MAX: usize = 4_194_304;

/// The digest at the key `digest`.
#[tactic(auto, using(crate::proofs::Steps::passed), unfolding(crate::specs::Fields::word))]
fn read_digest(object: &Object<'_>) -> Result<DigestName, ScriptRefusal>
    ensures { Gives (λ digest. digest) result (word (codes "digest") digest_words (view object.now.value.now)) }
{
    let word = object.word("digest")?;
    if word == "sha" {
        Ok(DigestName::Sha)
    } else if word == "short" {
        Ok(DigestName::Short)
    } else {
        Err(field(object.alloc, "digest"))
    }
}

/// The script that the value is, key after key and element after element.
#[tactic(auto, using(crate::proofs::Steps::passed), unfolding(crate::specs::Script::walked))]
fn walk(alloc: Global, value: &Value) -> Result<Script, ScriptRefusal>
    ensures { Gives (λ script. script) result (walked (view value.now)) }
{
    let object = Object::of(alloc, value, "script")?;
    object.within("format", 1, 1)?;
    let digest = read_digest(&object)?;
    let users = read_users(&object)?;
    let walls = read_walls(&object)?;
    let phases = read_phases(&object)?;
    let tamper = read_lines(&object)?;
    object.no_further(6)?;
    Ok(Script {
        digest,
        users: Sequence::of(users),
        walls: Sequence::of(walls),
        phases: Sequence::of(phases),
        tamper: Sequence::of(tamper),
    })
}

/// The script that the value is, where its numbers are listed and its users can sign what they write.
#[tactic(auto, using(crate::proofs::Steps::passed), unfolding(crate::specs::Reading::script_of))]
fn read_value(alloc: Global, value: &Value) -> Result<Script, ScriptRefusal>
    ensures { Gives (λ script. script) result (script_of (view value.now)) }
{
    let script = walk(alloc, value)?;
    all_known(&script)?;
    signs_enough(&script)?;
    Ok(script)
}

/// The value that the bytes are.
#[tactic(auto, unfolding(crate::specs::Reading::json_of))]
fn read_json(alloc: Global, bytes: &[u8]) -> Result<Value, ScriptRefusal>
    ensures { Gives view result (json_of bytes.now) }
{
    match Value::from_slice(alloc, bytes) {
        Ok(value) => Ok(value),
        Err(refusal) if refusal.is_memory() => Err(ScriptRefusal::NoMemory),
        Err(_) => Err(ScriptRefusal::NotJson),
    }
}

/// The script that the bytes spell, or the first refusal.
///
/// A script is one JSON object in at most 4,194,304 bytes of UTF-8 (RFC 8259; a key that is repeated in an
/// object counts once, with its last value). Every key is required. Refused are, in this order: too many
/// bytes (`Limit script`); what is no JSON, or nests deeper than 127 levels (`NotJson`); the first value
/// that isn't as its key wants it, on a walk over the keys in their order and the elements in order, depth
/// first (`Field`, `Limit`); the first number that isn't listed, of the owners, the phases and the tamper
/// lines (`Unknown`); the least user who has more writes than its key can sign (`TooManyWrites`).
/// `NoMemory` comes where an allocation is refused. The time and the memory are those of the reading of
/// the JSON, within a constant factor.
#[tactic(auto, using(crate::proofs::Steps::passed), unfolding(crate::specs::Reading::script_at))]
pub fn read_script(alloc: Global, bytes: &[u8]) -> Result<Script, ScriptRefusal>
    ensures { Gives (λ script. script) result (script_at bytes.now) }
{
    if SCRIPT_MAX < bytes.len() {
        return Err(limit(alloc, "script"));
    }
    let value = read_json(alloc, bytes)?;
    read_value(alloc, &value)
}
