use fr_bytes::NoMemory;
use std::alloc::{AllocError, AllocFailed};
use thiserror::Error;

/// Why a case can't be compared.
#[derive(Clone, Copy, Debug, PartialEq, Eq, Error)]
pub enum CaseFault {
    /// The case lacks a field.
    #[error("it has no {0}")]
    NoField(&'static str),
    /// A field has something else than the word says.
    #[error("it has something else than {0}")]
    NoValue(&'static str),
    /// An allocation was refused.
    #[error("an allocation was refused")]
    NoMemory,
}

/// Why a document can't be compared to its end.
#[derive(Clone, Copy, Debug, PartialEq, Eq, Error)]
pub enum DocumentFault {
    /// The input can't be read to its end.
    #[error("the document can't be read")]
    Unread,
    /// The input is no JSON object.
    #[error("the document is no JSON object")]
    NoObject,
    /// A part isn't of its form.
    #[error("part {part}: {cause}")]
    Part {
        /// The part's name.
        part: &'static str,
        /// What is wrong with it.
        cause: CaseFault,
    },
    /// A case isn't of its part's form.
    #[error("case {index} of {part}: {cause}")]
    Case {
        /// The part's name.
        part: &'static str,
        /// The case's place in its part, from 0.
        index: u64,
        /// What is wrong with it.
        cause: CaseFault,
    },
    /// What was found can't be written.
    #[error("the output can't be written")]
    Unwritten,
    /// An allocation was refused.
    #[error("an allocation was refused")]
    NoMemory,
}

impl From<NoMemory> for CaseFault {
    fn from(_refused: NoMemory) -> CaseFault {
        CaseFault::NoMemory
    }
}

impl From<AllocError> for CaseFault {
    fn from(_refused: AllocError) -> CaseFault {
        CaseFault::NoMemory
    }
}

impl<T: Drop> From<AllocFailed<T>> for CaseFault {
    fn from(_refused: AllocFailed<T>) -> CaseFault {
        CaseFault::NoMemory
    }
}

impl<T: Drop> From<AllocFailed<T>> for DocumentFault {
    fn from(_refused: AllocFailed<T>) -> DocumentFault {
        DocumentFault::NoMemory
    }
}
