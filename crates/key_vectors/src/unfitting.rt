use crate::run::Run;
use crate::words::Step;
use serde_json::Value;
use std::alloc::Global;
use vector_cases::{CaseFault, Cases, DocumentFault, Tally, byte_at, dig_at, field, flag_at};

/// Changes of one tree that are followed in turn, and needn't fit.
#[derive(Drop)]
struct Unfitting {
    run: Run,
}

impl Cases for Unfitting {
    fn is_same(&mut self, alloc: Global, case: &Value) -> Result<bool, CaseFault> {
        let step = Step::of(case)?;
        let slot = byte_at(case, "slot")?;
        let fits = self.run.follow(&step, slot, Vec::new(alloc))?;
        Ok(fits == flag_at(case, "fits")? && self.run.root() == Some(dig_at(case, "root_key")?))
    }
}

/// Compares the part of a document, where the document has it, and writes its lines. Returns how many cases differ.
pub fn compare<R: Print>(rt: &R, alloc: Global, document: &Value) -> Result<u64, DocumentFault> {
    let Some(part) = document.get("unfitting") else {
        return Ok(0);
    };
    let mut tally = Tally::new(alloc, "unfitting");
    add(&mut tally, alloc, part)?;
    tally.tell(rt)
}

fn add(tally: &mut Tally, alloc: Global, part: &Value) -> Result<(), DocumentFault> {
    match run_of(alloc, part) {
        Ok((run, steps)) => tally.add(steps, &mut Unfitting { run }),
        Err(cause) => Err(tally.fault(cause)),
    }
}

/// The run of a new tree of a part, and its steps.
fn run_of(alloc: Global, part: &Value) -> Result<(Run, &Value), CaseFault> {
    let steps = field(part, "run")?;
    Ok((Run::of(alloc, part)?, steps))
}
