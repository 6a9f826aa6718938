use crate::run::Run;
use crate::words::{Step, wraps_at};
use fr_digest::Dig;
use key_graph::PlanRefusal;
use op_types::Wraps;
use serde_json::Value;
use std::alloc::Global;
use vector_cases::{
    CaseFault, Cases, byte_at, dig_at, dig_of, dig_or_null, field, flag_at, list_at, list_of,
    small_of, word_at,
};

/// Whole runs: plans, what comes of following them, and the books at the end.
#[derive(Drop)]
pub struct Runs;

impl Cases for Runs {
    fn is_same(&mut self, alloc: Global, case: &Value) -> Result<bool, CaseFault> {
        let mut run = run_of(alloc, case)?;
        is_run(alloc, &mut run, case)
    }
}

/// The number that the key of an object's member is.
fn user_of(key: &str) -> Result<u32, CaseFault> {
    match key.parse::<u32>() {
        Ok(user) => Ok(user),
        Err(_) => Err(CaseFault::NoValue("a user's number")),
    }
}

fn add_users(run: &mut Run, case: &Value) -> Result<(), CaseFault> {
    let Some(secrets) = field(case, "secrets")?.as_object() else {
        return Err(CaseFault::NoValue("an object"));
    };
    for (user, secret) in secrets {
        run.add(user_of(user.as_str())?, dig_of(secret)?)?;
    }
    Ok(())
}

/// The run of a new tree of a case, with its users.
fn run_of(alloc: Global, case: &Value) -> Result<Run, CaseFault> {
    let mut run = Run::of(alloc, case)?;
    add_users(&mut run, case)?;
    Ok(run)
}

fn is_run(alloc: Global, run: &mut Run, case: &Value) -> Result<bool, CaseFault> {
    let root = dig_at(case, "epoch0")?;
    if run.root() != Some(root) || !are_steps(alloc, run, list_at(case, "run")?)? {
        return Ok(false);
    }
    are_books(run, case)
}

// ---- steps

fn are_steps(alloc: Global, run: &mut Run, steps: &[Value]) -> Result<bool, CaseFault> {
    for step in steps {
        if !is_step(alloc, run, step)? {
            return Ok(false);
        }
    }
    Ok(true)
}

fn is_step(alloc: Global, run: &mut Run, case: &Value) -> Result<bool, CaseFault> {
    let step = Step::of(case)?;
    if !is_planned(alloc, run, &step, case)? {
        return Ok(false);
    }
    if case.get("followed").is_none() {
        return Ok(true);
    }
    is_followed(alloc, run, &step, case)
}

fn cause(refusal: PlanRefusal) -> &'static str {
    match refusal {
        PlanRefusal::AlreadyIn => "AlreadyIn",
        PlanRefusal::NotIn => "NotIn",
        PlanRefusal::NoSlot => "NoSlot",
        PlanRefusal::NoMemory => "NoMemory",
    }
}

fn is_refused(refusal: PlanRefusal, case: &Value) -> Result<bool, CaseFault> {
    if refusal == PlanRefusal::NoMemory {
        return Err(CaseFault::NoMemory);
    }
    Ok(case.get("refused").is_some() && word_at(case, "refused")? == cause(refusal))
}

fn is_plan(alloc: Global, slot: u8, wraps: &Wraps, case: &Value) -> Result<bool, CaseFault> {
    if case.get("refused").is_some() || slot != byte_at(case, "slot")? {
        return Ok(false);
    }
    Ok(wraps.as_slice() == wraps_at(alloc, case)?.as_slice())
}

/// Whether the case's slot and wraps are planned, or what it is refused for.
fn is_planned(alloc: Global, run: &Run, step: &Step, case: &Value) -> Result<bool, CaseFault> {
    match run.plan(step) {
        Ok((slot, wraps)) => is_plan(alloc, slot, &wraps, case),
        Err(refusal) => is_refused(refusal, case),
    }
}

fn is_followed(alloc: Global, run: &mut Run, step: &Step, case: &Value) -> Result<bool, CaseFault> {
    let slot = byte_at(case, "slot")?;
    let fits = run.follow(step, slot, wraps_at(alloc, case)?)?;
    if fits != flag_at(case, "followed")? {
        return Ok(false);
    }
    let root = dig_at(case, "root_key")?;
    Ok(run.root() == Some(root) && are_holders(run, &root, list_at(case, "held_by")?)?)
}

fn has_user(list: &[Value], user: u32) -> bool {
    list.iter().any(|one| small_of(one) == Ok(user))
}

fn are_users(run: &Run, list: &[Value]) -> Result<bool, CaseFault> {
    for user in list {
        if run.user(small_of(user)?).is_none() {
            return Ok(false);
        }
    }
    Ok(true)
}

/// Whether the books of a list's users have the last epoch's root key, and the others' books none.
fn are_books_of(run: &Run, root: &Dig, list: &[Value]) -> bool {
    for known in run.users() {
        let found = run.root_of(known);
        let holds = has_user(list, known.user);
        if (holds && found != Some(*root)) || (!holds && found.is_some()) {
            return false;
        }
    }
    true
}

/// Whether exactly the users of the list hold the last epoch's root key, and the others' books none.
fn are_holders(run: &Run, root: &Dig, list: &[Value]) -> Result<bool, CaseFault> {
    Ok(are_users(run, list)? && are_books_of(run, root, list))
}

// ---- books

fn is_book(run: &Run, user: &str, keys: &Value) -> Result<bool, CaseFault> {
    let Some(known) = run.user(user_of(user)?) else {
        return Err(CaseFault::NoValue("a user of the run"));
    };
    for (epoch, key) in list_of(keys)?.iter().enumerate() {
        if known.book.root_key(epoch as u64) != dig_or_null(key)? {
            return Ok(false);
        }
    }
    Ok(true)
}

fn are_books(run: &Run, case: &Value) -> Result<bool, CaseFault> {
    let Some(books) = field(case, "books")?.as_object() else {
        return Err(CaseFault::NoValue("an object"));
    };
    for (user, keys) in books {
        if !is_book(run, user.as_str(), keys)? {
            return Ok(false);
        }
    }
    Ok(true)
}
