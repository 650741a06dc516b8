//! A root in memory is a root, whose log is told.
use crate::mem_root::MemRoot;
use roots_api::{Answer, Op, Root, Who};
use std::alloc::{AllocError, Global};

impl Root for MemRoot {
    ghost use Rattle.std.specs.Prelude.{Some, true};
    ghost use Rattle.roots_api.specs.Logs.{failed_in};
    ghost use Rattle.mem_roots.specs.MemRoot.{Leads};

    ghost told = { λ r. Some r.log };

    ghost faults = { λ r. failed_in r.log };

    ghost full_answers = { λ r. r.full_answers };

    ghost leads = { Leads };

    ghost is_bounded = { true };

    ghost keeps_links = { true };

    ghost keeps_bits = { true };

    fn call(&mut self, alloc: Global, who: &Who, op: &Op) -> Result<Answer, AllocError> {
        MemRoot::call(self, alloc, who, op)
    }
}
