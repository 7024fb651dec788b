// A span with the answer to whether a part may have it.
ghost use Rattle.std.specs.Prelude.{◌≡◌};
ghost use Rattle.bus.specs.Board.{range_check, is_accepted, offset_in};

use crate::address::PhysAddr;
use crate::board::Span;
use std::marker::Model;

// Its numbers are checked as it is made, so that an access is left with one comparison.
#[derive(Drop)]
pub struct Reach {
    span: Span,
    // The length, or 0 where the numbers are refused.
    reached_length: u64,
}

// A clause sees the span alone.
impl Model for Reach {
    ghost use Rattle.std.specs.Prelude.{◌≡◌};
    ghost use Rattle.bus.specs.declared.board.Span.{Span};

    ghost Value = { Span };

    ghost use Rattle.bus.specs.Board.{accepted_length};

    ghost view = { λ reach. reach.span };

    ghost invariant = { λ reach. reach.reached_length ≡ accepted_length reach.span.base.0 reach.span.length };
}

impl Reach {
    pub fn new(span: Span) -> Reach
        ensures { result ≡ span }
    {
        let reached_length = if span.check().is_ok() { span.length } else { 0 };
        Reach {
            span,
            reached_length,
        }
    }

    pub fn base(&self) -> PhysAddr
        ensures { result ≡ self.now.base }
    {
        self.span.base
    }

    // Whether a part may have the span.
    pub fn is_accepted(&self) -> bool
        ensures { result ≡ is_accepted (range_check self.now.base.0 self.now.length) }
    {
        self.reached_length != 0
    }

    // How far `at` lies behind the base, if a part of that span has it.
    // Always compiled in, as the reads and writes of the layers are that ask it at each access.
    #[inline(always)]
    pub fn offset_of(&self, at: PhysAddr) -> Option<u32>
        ensures { result ≡ offset_in self.now.base.0 self.now.length at.0 }
    {
        // An address below the base wraps to a number that no accepted length reaches.
        let offset = at.0.wrapping_sub(self.base().0);
        (u64::from(offset) < self.reached_length).then_some(offset)
    }
}
