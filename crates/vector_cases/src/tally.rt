use crate::faults::{CaseFault, DocumentFault};
use crate::fields::list_of;
use serde_json::Value;
use std::alloc::Global;

/// How the cases of a list are compared, one after the other.
pub trait Cases {
    /// Whether what the next case says is so. A case that isn't of its form is a fault.
    fn is_same(&mut self, alloc: Global, case: &Value) -> Result<bool, CaseFault>;
}

/// How many cases of a part were compared, and which of them differ.
#[derive(Drop)]
pub struct Tally {
    alloc: Global,
    part: &'static str,
    cases: u64,
    differing: Vec<u64>,
}

impl Tally {
    /// Of a part, before its first case.
    pub fn new(alloc: Global, part: &'static str) -> Tally {
        Tally {
            alloc,
            part,
            cases: 0,
            differing: Vec::new(alloc),
        }
    }

    /// Compares a list of cases, which follow those that were compared before.
    pub fn add<C: Cases>(&mut self, list: &Value, cases: &mut C) -> Result<(), DocumentFault> {
        match list_of(list) {
            Ok(list) => self.add_all(list, cases),
            Err(cause) => Err(self.fault(cause)),
        }
    }

    fn add_all<C: Cases>(&mut self, list: &[Value], cases: &mut C) -> Result<(), DocumentFault> {
        for case in list {
            match cases.is_same(self.alloc, case) {
                Ok(same) => self.count(same)?,
                Err(cause) => {
                    return Err(DocumentFault::Case {
                        part: self.part,
                        index: self.cases,
                        cause,
                    });
                }
            }
        }
        Ok(())
    }

    fn count(&mut self, same: bool) -> Result<(), DocumentFault> {
        if !same {
            self.differing.push(self.cases)?;
        }
        self.cases = self.cases.saturating_add(1);
        Ok(())
    }

    /// What is wrong with the part.
    pub fn fault(&self, cause: CaseFault) -> DocumentFault {
        DocumentFault::Part {
            part: self.part,
            cause,
        }
    }

    /// Writes the index of each case that differs, from 0, and then the part's line. Returns how many differ.
    pub fn tell<R: Print>(&self, rt: &R) -> Result<u64, DocumentFault> {
        for index in &self.differing {
            if println!(rt; "{index}").is_err() {
                return Err(DocumentFault::Unwritten);
            }
        }
        let differ = self.differing.len();
        if println!(rt; "{} {} cases, {differ} differ", self.part, self.cases).is_err() {
            return Err(DocumentFault::Unwritten);
        }
        Ok(differ as u64)
    }
}

/// Compares the cases of a document's part that is a list, where the document has the part, and writes its lines.
/// Returns how many differ.
pub fn compare<R: Print, C: Cases>(
    rt: &R,
    alloc: Global,
    document: &Value,
    part: &'static str,
    cases: &mut C,
) -> Result<u64, DocumentFault> {
    let Some(list) = document.get(part) else {
        return Ok(0);
    };
    let mut tally = Tally::new(alloc, part);
    tally.add(list, cases)?;
    tally.tell(rt)
}
