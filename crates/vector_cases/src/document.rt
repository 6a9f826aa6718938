use crate::faults::DocumentFault;
use serde_json::Value;
use std::alloc::Global;
use std::io::Read;

/// The status where a document can't be compared to its end.
const FAULTY: u8 = 2;

/// The document that an input holds, read to its end. It is an object.
pub fn read_document<R: Read>(alloc: Global, input: &mut R) -> Result<Value, DocumentFault> {
    let mut bytes = Vec::new(alloc);
    if input.read_to_end(&mut bytes).is_err() {
        return Err(DocumentFault::Unread);
    }
    match Value::from_slice(alloc, &bytes) {
        Ok(document) if document.is_object() => Ok(document),
        Err(error) if error.is_memory() => Err(DocumentFault::NoMemory),
        _ => Err(DocumentFault::NoObject),
    }
}

/// The status of a program that compared a document: 0 where no case differs, 1 where one does, and 2 where the
/// document can't be compared to its end, which is told on the error output.
pub fn status<R: Eprint>(rt: &R, differ: Result<u64, DocumentFault>) -> u8 {
    match differ {
        Ok(0) => 0,
        Ok(_) => 1,
        Err(fault) => {
            // The status says it too.
            let _ = eprintln!(rt; "{fault}");
            FAULTY
        }
    }
}
