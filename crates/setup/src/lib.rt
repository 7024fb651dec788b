//! The lines of a set-up.
#![tactic(auto)]

pub mod line;
pub mod text;

pub use line::SetupLine;
pub use text::split_line;
