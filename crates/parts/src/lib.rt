//! The parts at the bottom of a board.
#![tactic(auto)]

pub mod bank;
mod bytes;
pub mod image;
mod lent;
pub mod ports;

pub use bank::Bank;
pub use image::Image;
pub use ports::Ports;
