//! What a cycle was told, as contracts see it.
ghost use Rattle.std.specs.Prelude.{◌≡◌, ◌++◌, ◌∷◌, [], None, Some};
ghost use Rattle.std.specs.Option.{option_map};

use crate::request::Taken;
use crate::spec::Caches;
use crate::stand::Next;
use std::marker::Model;
use std::snapshot::Snapshot;

// One turn: what the cycle was told, or a stop; how it went on, and its caches then. It has no bytes.
#[derive(Drop)]
struct Made {
    told: Option<Snapshot<Taken>>,
    came: Snapshot<Next>,
    caches: Snapshot<Caches>,
}

// Some turns and one behind them. They have no bytes, so they need no memory: each names the ones before by their value alone.
#[derive(Drop)]
struct Turns {
    before: Option<Snapshot<Turns>>,
    last: Made,
}

impl Model for Turns {
    ghost use Rattle.std.specs.Prelude.{List, [], ◌∷◌, ◌++◌, length};
    ghost use Rattle.std.specs.Coded.{coded_list};
    ghost use Rattle.std.specs.Option.{option_map, option_map_or};
    ghost use Rattle.cycle_core.specs.CycleCodes.{turn_code};
    ghost use Rattle.cycle_core.specs.Turns.{Turn};

    ghost Value = { List Turn };

    ghost coded = { coded_list turn_code };

    ghost view = { λ t. option_map_or (λ s. s.value) t.before [] ++ (record { told = option_map (λ s. s.value) t.last.told; came = t.last.came.value; caches = t.last.caches.value }) ∷ [] };

    ghost size = { length };
}

/// The turns of a cycle, the oldest first. They have no bytes: only contracts read them.
#[derive(Drop)]
pub(crate) struct History {
    turns: Option<Turns>,
}

impl Model for History {
    ghost use Rattle.std.specs.Prelude.{List, []};
    ghost use Rattle.std.specs.Coded.{coded_list};
    ghost use Rattle.std.specs.Option.{option_map_or};
    ghost use Rattle.cycle_core.specs.CycleCodes.{turn_code};
    ghost use Rattle.cycle_core.specs.Turns.{Turn};

    ghost Value = { List Turn };

    ghost coded = { coded_list turn_code };

    ghost view = { λ h. option_map_or (λ t. t) h.turns [] };
}

impl History {
    /// No turns. It takes no memory.
    pub(crate) fn new() -> History
        ensures { result ≡ [] }
    {
        History { turns: None }
    }

    /// Adds a turn. It takes no memory.
    pub(crate) fn push(&mut self, told: Option<Snapshot<Taken>>, came: &Next, caches: &Caches)
        ensures { self.new ≡ self.old ++ (record { told = option_map (λ s. s.value) told; came = came.now; caches = caches.now }) ∷ [] }
    {
        let before = match &self.turns {
            Some(turns) => Some(Snapshot::of(turns)),
            None => None,
        };
        let last = Made {
            told,
            came: Snapshot::of(came),
            caches: Snapshot::of(caches),
        };
        self.turns = Some(Turns { before, last });
    }
}
