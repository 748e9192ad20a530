//! The set at the top.
ghost use Rattle.std.specs.Prelude.{◌&&◌, eqb};

use crate::number_set::NumberSet;
use std::alloc::{AllocError, Global};

/// A set of the number 0 alone.
#[derive(Drop)]
pub(crate) struct TopBit {
    any: bool,
}

impl NumberSet for TopBit {
    ghost most = { 1 };

    ghost size = { λ s. 1 };

    ghost held = { λ s q. s.any && eqb q 0 };

    fn new(_alloc: Global, _len: usize) -> Result<TopBit, AllocError> {
        Ok(TopBit { any: false })
    }

    fn put(&mut self, _place: usize) {
        self.any = true;
    }

    fn take(&mut self, _place: usize) {
        self.any = false;
    }

    fn least(&self) -> Option<usize> {
        if self.any { Some(0) } else { None }
    }
}
