use crate::runs::run_at;
use crate::scripts::script_at;
use script_form::{Outcomes, Script, ScriptRefusal, read_script, report, summary};
use serde_json::Value;
use std::alloc::Global;
use vector_cases::{CaseFault, Cases, word_at};

/// What is printed of runs.
#[derive(Drop)]
pub struct Reports;

impl Cases for Reports {
    fn is_same(&mut self, alloc: Global, case: &Value) -> Result<bool, CaseFault> {
        let run = run_at(alloc, case)?;
        match read_script(alloc, &script_at(alloc, case)?) {
            Ok(script) => are_printed_so(alloc, &script, &run, case),
            Err(ScriptRefusal::NoMemory) => Err(CaseFault::NoMemory),
            Err(_) => Err(CaseFault::NoValue("a script")),
        }
    }
}

/// Whether the report and the summary are as the case says.
fn are_printed_so(
    alloc: Global,
    script: &Script,
    run: &Outcomes,
    case: &Value,
) -> Result<bool, CaseFault> {
    let whole = report(alloc, script, run)?;
    let short = summary(alloc, script, run)?;
    Ok(
        whole.as_slice() == word_at(case, "report")?.as_bytes()
            && short.as_slice() == word_at(case, "summary")?.as_bytes(),
    )
}
