//! Bus calls as values: one, a list of them on any bus, one on memory that the caller keeps; and a write that is read back.
#![tactic(auto)]

pub mod any_bus;
pub mod call;
pub mod lent_memory;
pub mod verified;

pub use any_bus::{perform, perform_all};
pub use call::{Answer, Call};
pub use lent_memory::perform_in_memory;
pub use verified::write_verified;
