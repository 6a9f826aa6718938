//! Byte lists, a cursor that reads big-endian numbers and writers that append them: the floor under
//! every format of the project. Reading and writing are exact, and want of memory is always an answer
//! of its own.
#![tactic(auto)]

mod cur;
mod history;
mod put;
mod refusals;
mod sequence;

pub use cur::Cur;
pub use history::{turns_grow, turns_stay, whole};
pub use put::{put_bytes, put_counted, put_u8, put_u16, put_u32, put_u64};
pub use refusals::{NoMemory, OutsideRange, ReadRefusal, TooFew};
pub use sequence::{Bytes, Sequence, Texts};

#[cfg(test)]
mod tests;
