//! The control and status registers, each with its fields: how they are read as words and written.
#![tactic(auto)]

pub mod exception;
pub mod interrupts;
pub mod mode;
pub mod previous;
pub mod timer;
pub mod tlb_registers;
pub mod window;
pub mod words;

pub use exception::{Cause, Exception, PageFault};
pub use interrupts::{Enabled, Interrupts, Pending};
pub use mode::{Mode, TranslationMode};
pub use previous::PreviousMode;
pub use timer::Timer;
pub use tlb_registers::{TlbLow, TlbRegisters};
pub use window::{Window, Windows};
pub use words::flag;
