//! The TLB: 16 entries of two pages each, how they are searched, written and invalidated.
#![tactic(auto)]

pub mod entry;
pub mod invalidation;
pub mod table;

pub use entry::Entry;
pub use invalidation::Invalidation;
pub use table::{ENTRIES, Tlb};
