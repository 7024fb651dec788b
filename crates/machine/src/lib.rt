//! The core: reset, step, run, read-outs and closing, on any bus.
#![tactic(auto)]

mod access;
pub mod answers;
mod exceptions;
mod execution;
mod loads_and_stores;
pub mod look_aside;
mod read_outs;
mod refusals;
mod running;
pub mod stages;
pub mod state;
pub mod state_with_look_aside;
mod stepping;
mod supervision;

pub use answers::{CallRefusal, Event, RunReport, StepRefusal};
pub use stages::{ClosedCore, RunningCore, UnresetCore};
