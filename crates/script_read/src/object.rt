ghost use Rattle.std.specs.Prelude.{◌≡◌, ◌≤◌, ℕ, codes, IfOk};
ghost use Rattle.serde_json.specs.Find.{as_number, as_str, as_bool, as_array};
ghost use Rattle.serde_json.specs.View.{view, items_view};
ghost use Rattle.script_read.specs.Refusal.{Gives};
ghost use Rattle.script_read.specs.Fields.{natural_within, listed, as_natural, hexadecimal, hexadecimal_within, printable, an_object, key, limited, limited_text, sized_list, list_within, keys_in, no_further};

use crate::printable::is_printable_text;
use crate::refusal::{ScriptRefusal, field, limit};
use fr_bytes::Bytes;
use hex::{FromHex, FromHexError};
use serde_json::Value;
use std::alloc::Global;

/// An object of a script, whose keys are read one after the other.
#[derive(Clone, Copy)]
pub(crate) struct Object<'a> {
    pub alloc: Global,
    pub value: &'a Value,
}

impl<'a> Object<'a> {
    /// The object that an element of a list is. `list` names the list's key.
    #[tactic(auto, unfolding(crate::specs::Fields::an_object))]
    pub(crate) fn of(
        alloc: Global,
        value: &'a Value,
        list: &str,
    ) -> Result<Object<'a>, ScriptRefusal>
        ensures { Gives (λ o. view o.value.now) result (an_object list.now (view value.now)) }
    {
        if value.is_object() {
            Ok(Object { alloc, value })
        } else {
            Err(field(alloc, list))
        }
    }

    /// A whole number from `low` to `high`.
    #[tactic(auto, unfolding(crate::specs::Fields::key))]
    pub(crate) fn within(&self, name: &str, low: u32, high: u32) -> Result<u32, ScriptRefusal>
        ensures found { Gives (λ n. n) result (key name.now (natural_within low high) (view self.now.value.now)) }
        ensures range { IfOk result (λ n. (low ≤ n) × (n ≤ high)) }
    {
        match self.value.get(name).and_then(Value::as_u64) {
            Some(n) if u64::from(low) <= n && n <= u64::from(high) => Ok(n as u32),
            _ => Err(field(self.alloc, name)),
        }
    }

    /// A user's or a wall's number.
    pub(crate) fn listed(&self, name: &str) -> Result<u32, ScriptRefusal>
        ensures { Gives (λ n. n) result (key name.now listed (view self.now.value.now)) }
    {
        self.within(name, 1, 65_535)
    }

    /// A number of any size.
    #[tactic(auto, unfolding(crate::specs::Fields::key))]
    pub(crate) fn number(&self, name: &str) -> Result<u64, ScriptRefusal>
        ensures { Gives (λ n. n) result (key name.now as_natural (view self.now.value.now)) }
    {
        match self.value.get(name).and_then(Value::as_u64) {
            Some(n) => Ok(n),
            None => Err(field(self.alloc, name)),
        }
    }

    /// A number from `low` to `high`. More than `high` is past a limit.
    #[tactic(auto, using(crate::proofs::Steps::passed), unfolding(crate::specs::Fields::limited))]
    pub(crate) fn limited(&self, name: &str, low: u32, high: u32) -> Result<u32, ScriptRefusal>
        ensures found { Gives (λ n. n) result (limited name.now low high (view self.now.value.now)) }
        ensures range { IfOk result (λ n. (low ≤ n) × (n ≤ high)) }
    {
        let n = self.number(name)?;
        if n < u64::from(low) {
            return Err(field(self.alloc, name));
        }
        if u64::from(high) < n {
            return Err(limit(self.alloc, name));
        }
        Ok(n as u32)
    }

    /// Exactly `N` bytes in hexadecimal digits of either case.
    #[tactic(auto, unfolding(crate::specs::Fields::key))]
    pub(crate) fn digits<const N: usize>(&self, name: &str) -> Result<[u8; N], ScriptRefusal>
        ensures { Gives (λ bytes. bytes) result (key name.now (hexadecimal N) (view self.now.value.now)) }
    {
        match self.value.get(name).and_then(Value::as_str) {
            Some(text) => match <[u8; N]>::from_hex(text) {
                Ok(bytes) => Ok(bytes),
                Err(_) => Err(field(self.alloc, name)),
            },
            None => Err(field(self.alloc, name)),
        }
    }

    /// From `low` to `high` bytes in hexadecimal digits of either case.
    #[tactic(auto, unfolding(crate::specs::Fields::key))]
    pub(crate) fn bytes(&self, name: &str, low: usize, high: usize) -> Result<Bytes, ScriptRefusal>
        ensures { Gives (λ bytes. bytes) result
            (key name.now (hexadecimal_within low high) (view self.now.value.now)) }
    {
        match self.value.get(name).and_then(Value::as_str) {
            Some(text) => match hex::decode(self.alloc, text) {
                Ok(bytes) if low <= bytes.len() && bytes.len() <= high => Ok(Bytes::of(bytes)),
                Err(FromHexError::OutOfMemory) => Err(ScriptRefusal::NoMemory),
                _ => Err(field(self.alloc, name)),
            },
            None => Err(field(self.alloc, name)),
        }
    }

    /// True or false.
    #[tactic(auto, unfolding(crate::specs::Fields::key))]
    pub(crate) fn flag(&self, name: &str) -> Result<bool, ScriptRefusal>
        ensures { Gives (λ flag. flag) result (key name.now as_bool (view self.now.value.now)) }
    {
        match self.value.get(name).and_then(Value::as_bool) {
            Some(flag) => Ok(flag),
            None => Err(field(self.alloc, name)),
        }
    }

    /// A text.
    #[tactic(auto, unfolding(crate::specs::Fields::key))]
    pub(crate) fn word(&self, name: &str) -> Result<&'a str, ScriptRefusal>
        ensures { Gives (λ text. text.now) result (key name.now as_str (view self.now.value.now)) }
    {
        match self.value.get(name).and_then(Value::as_str) {
            Some(text) => Ok(text),
            None => Err(field(self.alloc, name)),
        }
    }

    #[tactic(auto, unfolding(crate::specs::Fields::key))]
    fn printable(&self, name: &str) -> Result<&'a str, ScriptRefusal>
        ensures { Gives (λ text. text.now) result (key name.now printable (view self.now.value.now)) }
    {
        match self.value.get(name).and_then(Value::as_str) {
            Some(text) if is_printable_text(text.as_bytes()) => Ok(text),
            _ => Err(field(self.alloc, name)),
        }
    }

    /// A text of bytes from `20` to `7e`. More than `most` of them are past a limit.
    #[tactic(auto, using(crate::proofs::Steps::passed), unfolding(crate::specs::Fields::limited_text))]
    pub(crate) fn text(&self, name: &str, most: usize) -> Result<Bytes, ScriptRefusal>
        ensures { Gives (λ text. text) result (limited_text name.now most (view self.now.value.now)) }
    {
        let text = self.printable(name)?;
        if most < text.len() {
            return Err(limit(self.alloc, name));
        }
        Ok(Bytes::of(Vec::from_slice(self.alloc, text.as_bytes())?))
    }

    /// A list.
    #[tactic(auto, unfolding(crate::specs::Fields::key))]
    pub(crate) fn list(&self, name: &str) -> Result<&'a [Value], ScriptRefusal>
        ensures { Gives (λ list. items_view list.now) result (key name.now as_array (view self.now.value.now)) }
    {
        match self.value.get(name).and_then(Value::as_array) {
            Some(list) => Ok(list.as_slice()),
            None => Err(field(self.alloc, name)),
        }
    }

    /// A list of `low` to `high` elements. More than `high` are past a limit.
    #[tactic(auto, using(crate::proofs::Steps::passed), unfolding(crate::specs::Fields::list_within))]
    pub(crate) fn list_within(
        &self,
        name: &str,
        low: usize,
        high: usize,
    ) -> Result<&'a [Value], ScriptRefusal>
        ensures { Gives (λ list. items_view list.now) result
            (list_within name.now low high (view self.now.value.now)) }
    {
        let list = self.list(name)?;
        sized_list(self.alloc, list, name, low, high)
    }

    fn keys(&self) -> usize
        ensures { result ≡ keys_in (view self.now.value.now) }
    {
        match self.value.as_object() {
            Some(members) => members.len(),
            None => 0,
        }
    }

    /// Refuses a further key, where `count` keys were found.
    #[tactic(auto, unfolding(crate::specs::Fields::no_further))]
    pub(crate) fn no_further(&self, count: usize) -> Result<(), ScriptRefusal>
        ensures { Gives (λ u. u) result (no_further count (view self.now.value.now)) }
    {
        if count < self.keys() {
            return Err(field(self.alloc, "extra"));
        }
        Ok(())
    }
}

/// The list, where it has `low` to `high` elements. More than `high` are past a limit.
#[tactic(auto, using(crate::proofs::Lists::counts, crate::proofs::Steps::told), unfolding(crate::specs::Fields::sized_list))]
pub(crate) fn sized_list<'a>(
    alloc: Global,
    list: &'a [Value],
    name: &str,
    low: usize,
    high: usize,
) -> Result<&'a [Value], ScriptRefusal>
    ensures { Gives (λ list. items_view list.now) result (sized_list name.now low high (items_view list.now)) }
{
    if list.len() < low {
        return Err(field(alloc, name));
    }
    if high < list.len() {
        return Err(limit(alloc, name));
    }
    Ok(list)
}
