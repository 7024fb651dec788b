//! What a driver does with a core on a bus: calls as values, lists of them, and two machines given the same list.
#![tactic(auto)]

pub mod call;
pub mod one_machine;
pub mod two_machines;

pub use call::{Answer, Call};
pub use one_machine::{drive, perform};
pub use two_machines::lockstep;
