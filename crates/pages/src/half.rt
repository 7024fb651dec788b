// One page of the two that a TLB entry maps.
use crate::address::Frame;
use crate::bits::{AccessType, Bits};

#[derive(Clone, Copy, PartialEq, Eq, Debug)]
pub struct Half {
    pub valid: bool,
    pub dirty: bool,
    pub plv: Bits<2>,
    pub mat: AccessType,
    pub frame: Frame,
}
