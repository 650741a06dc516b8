//! Two roots in memory as the link of a session that has them for itself.
use entry_tree::Side;
use mem_roots::MemRoot;
use roots_api::{Answer, Op, RootLink, Who};
use std::alloc::{AllocError, Global};

/// Two roots in memory, of which one session has both for itself.
#[derive(Drop)]
pub struct Pair {
    id: u128,
    run: u32,
    alpha: MemRoot,
    beta: MemRoot,
}

impl Pair {
    /// Two new roots, for the session with this identifier in this run.
    pub fn new(alloc: Global, id: u128, run: u32) -> Result<Pair, AllocError> {
        let alpha = MemRoot::new(alloc)?;
        let beta = MemRoot::new(alloc)?;
        Ok(Pair {
            id,
            run,
            alpha,
            beta,
        })
    }
}

impl RootLink for Pair {
    ghost use Rattle.std.specs.Prelude.{true};
    ghost use Rattle.link_tests.specs.Pairs.{told_of, faults_of, fulls_of, PairLeads};

    ghost id = { λ p. p.id };

    ghost run = { λ p. p.run };

    ghost told = { told_of };

    ghost faults = { faults_of };

    ghost full_answers = { fulls_of };

    ghost leads = { PairLeads };

    ghost is_bounded = { λ _ _. true };

    ghost keeps_links = { λ _ _. true };

    ghost keeps_bits = { λ _ _. true };

    fn call(
        &mut self,
        alloc: Global,
        side: Side,
        cycle: u64,
        op: &Op,
    ) -> Result<Answer, AllocError> {
        let who = Who::Session {
            id: self.id,
            run: self.run,
            cycle,
        };
        match side {
            Side::Alpha => {
                let _ = self.alpha.log();
                self.alpha.call(alloc, &who, op)
            }
            Side::Beta => {
                let _ = self.beta.log();
                self.beta.call(alloc, &who, op)
            }
        }
    }
}
