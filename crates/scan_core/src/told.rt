//! What a scan was told, as contracts see it.
ghost use Rattle.std.specs.Prelude.{◌≡◌, ◌++◌, ◌∷◌, [], OnOk};

use ignore_rules::Rules;
use roots_api::Answer;
use scan_cache::Cache;
use std::alloc::{AllocError, Global};
use std::marker::Model;
use std::snapshot::Snapshot;

// One answer that a scan took, with the rules and the cache that it was given. It has no bytes.
#[derive(Drop)]
struct Take {
    answer: Snapshot<Answer>,
    rules: Snapshot<Rules>,
    cache: Snapshot<Cache>,
}

/// The answers that a scan took, the oldest first. They have no bytes: only contracts read them.
#[derive(Drop)]
pub(crate) struct Takes {
    takes: Vec<Take>,
}

impl Model for Takes {
    ghost use Rattle.std.specs.Prelude.{List, map};
    ghost use Rattle.scan_core.specs.Told.{Told, told_code};
    ghost use Rattle.std.specs.Coded.{coded_list};

    ghost Value = { List Told };

    ghost coded = { coded_list told_code };

    ghost view = { λ t. map (λ k. record { answer = k.answer.value; rules = k.rules.value; cache = k.cache.value }) t.takes.items };
}

impl Takes {
    /// No answers. It takes no memory.
    pub(crate) fn new(alloc: Global) -> Takes
        ensures { result ≡ [] }
    {
        Takes {
            takes: Vec::new(alloc),
        }
    }

    /// Adds an answer.
    pub(crate) fn push(
        &mut self,
        answer: &Answer,
        rules: &Rules,
        cache: &Cache,
    ) -> Result<(), AllocError>
        ensures { OnOk result (self.new ≡ self.old ++ (record { answer = answer.now; rules = rules.now; cache = cache.now }) ∷ []) }
    {
        let take = Take {
            answer: Snapshot::of(answer),
            rules: Snapshot::of(rules),
            cache: Snapshot::of(cache),
        };
        self.takes.push(take)?;
        Ok(())
    }
}
