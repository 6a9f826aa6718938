use script_form::{ScriptRefusal, read_script, refusal_line};
use serde_json::Value;
use std::alloc::Global;
use vector_cases::{CaseFault, Cases, bytes_at, word_at};

/// Bytes that are read as scripts, or refused.
#[derive(Drop)]
pub struct Scripts;

impl Cases for Scripts {
    fn is_same(&mut self, alloc: Global, case: &Value) -> Result<bool, CaseFault> {
        let script = script_at(alloc, case)?;
        let line = word_at(case, "line")?;
        match read_script(alloc, &script) {
            Ok(_) => Ok(line == "ok"),
            Err(ScriptRefusal::NoMemory) => Err(CaseFault::NoMemory),
            Err(refusal) => is_refused_so(alloc, &refusal, line),
        }
    }
}

/// The bytes of the case's script: those of a text, or of hexadecimal digits.
pub fn script_at(alloc: Global, case: &Value) -> Result<Vec<u8>, CaseFault> {
    match case.get("script").and_then(Value::as_str) {
        Some(text) => Ok(Vec::from_slice(alloc, text.as_bytes())?),
        None => bytes_at(alloc, case, "hex"),
    }
}

/// Whether what is written of the refusal is `refused script`, then the line.
fn is_refused_so(alloc: Global, refusal: &ScriptRefusal, line: &str) -> Result<bool, CaseFault> {
    let wanted = format!(in alloc; "refused script {line}\n")?;
    let found = refusal_line(alloc, refusal)?;
    Ok(found.as_slice() == wanted.as_bytes())
}
