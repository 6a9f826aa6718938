use fr_digest::Dig;
use key_graph::KeyChange;
use op_types::Wrap;
use serde_json::Value;
use std::alloc::Global;
use vector_cases::{CaseFault, dig_of, list_at, list_of, small_at, small_of, word_at};

/// What a step plans or follows, as a document tells it.
#[derive(Clone, Copy)]
pub struct Step {
    /// The generation.
    pub generation: u32,
    /// Whether the user is admitted, and else removed.
    pub admits: bool,
    /// The user.
    pub user: u32,
}

impl Step {
    /// The step of a case.
    pub fn of(case: &Value) -> Result<Step, CaseFault> {
        let admits = match word_at(case, "what")? {
            "admit" => true,
            "remove" => false,
            _ => return Err(CaseFault::NoValue("admit or remove")),
        };
        Ok(Step {
            generation: small_at(case, "gen")?,
            admits,
            user: small_at(case, "user")?,
        })
    }

    /// The change, of a user with this leaf key.
    pub fn change(&self, leaf: Dig) -> KeyChange {
        let user = self.user;
        if self.admits {
            KeyChange::Admit { user, leaf }
        } else {
            KeyChange::Remove { user }
        }
    }
}

fn wrap(value: &Value) -> Result<Wrap, CaseFault> {
    let [child, child_gen, body] = list_of(value)? else {
        return Err(CaseFault::NoValue("a wrap"));
    };
    Ok(Wrap {
        child: small_of(child)?,
        child_gen: small_of(child_gen)?,
        body: dig_of(body)?,
    })
}

/// The wraps of a case.
pub fn wraps_at(alloc: Global, case: &Value) -> Result<Vec<Wrap>, CaseFault> {
    let mut all = Vec::new(alloc);
    for value in list_at(case, "wraps")? {
        all.push(wrap(value)?)?;
    }
    Ok(all)
}
