//! The operations of a wall, the leaves that hold them and the views that they embed: plain records,
//! the one spelling of each, readers and writers that are exact, and the messages that are signed.
#![tactic(auto)]

mod kind;
pub mod laws;
pub mod limits;
mod messages;
mod op;
mod reading;
mod roles;
pub mod tags;
#[cfg(test)]
mod tests;
mod view;
mod writing;
mod written;

pub use kind::{Kind, Wrap, Wraps};
pub use messages::{VIEW_MESSAGE_BYTES, op_message, view_message};
pub use op::{Changes, Leaf, Leaves, Op};
pub use reading::{read_leaf, read_op, view_at};
pub use roles::{OWNER, READER, WRITER, may_be_given, may_write};
pub use view::View;
pub use writing::{put_view, write_leaf, write_op};
pub use written::{WrittenLeaves, op_part};
