use pad_wrap::{PAD_BYTES_MAX, pad};
use serde_json::Value;
use std::alloc::Global;
use vector_cases::{CaseFault, Cases, bytes_at, dig_at, number_at};

/// Padded texts.
#[derive(Drop)]
pub struct Pads;

impl Cases for Pads {
    fn is_same(&mut self, alloc: Global, case: &Value) -> Result<bool, CaseFault> {
        let key = dig_at(case, "key")?;
        let stream = number_at(case, "stream")?;
        let mut text = bytes_at(alloc, case, "text")?;
        if text.len() > PAD_BYTES_MAX {
            return Err(CaseFault::NoValue("a text that can be padded"));
        }
        pad(&key, stream, text.as_mut_slice());
        Ok(text.as_slice() == bytes_at(alloc, case, "padded")?.as_slice())
    }
}
