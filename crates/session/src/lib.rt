//! A set-up handled line by line: what each line does and answers, and the listing that tells it.
#![tactic(auto)]

pub mod answer;
pub mod listing;
mod listing_text;
pub mod session;
#[cfg(test)]
mod tests;
pub mod whole_text;

pub use answer::{LineAnswer, LineRefusal};
pub use listing::Listing;
pub use session::Session;
pub use whole_text::{BANK_BASE, BANK_BYTES, MOST_TEXT_BYTES, print_listing, read_text};
