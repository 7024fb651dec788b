//! What address translation speaks of: virtual addresses, frames, pages and their sizes, privilege, kinds of access.
#![tactic(auto)]

pub mod access_kind;
pub mod address;
pub mod bits;
pub mod half;
pub mod page_size;
pub mod privilege;

pub use access_kind::AccessKind;
pub use address::{Frame, VirtAddr};
pub use bits::{ASID_BITS, AccessType, Asid, Bits, TlbIndex, Vppn};
pub use half::Half;
pub use page_size::PageSize;
pub use privilege::Privilege;
