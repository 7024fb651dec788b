//! What an instruction asks for: the state that every program sees, the actions, and which one an instruction means.
#![tactic(auto)]

pub mod action;
mod addresses;
mod forms;
mod planning;
pub mod registers;
pub mod user;

pub use action::{Action, PrivilegedAction};
pub use registers::GeneralRegisters;
pub use user::UserState;
