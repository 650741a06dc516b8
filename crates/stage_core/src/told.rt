//! What a staging was made of and told, as contracts see it.
ghost use Rattle.std.specs.Prelude.{◌≡◌, ◌++◌, ◌∷◌, [], List, ℕ, OnOk, OnErr};
ghost use Rattle.roots_api.specs.declared.answer.Answer.{Answer};

use crate::need::Need;
use roots_api::Answer;
use std::alloc::{AllocError, Global};
use std::marker::Model;
use std::snapshot::Snapshot;

/// The files of a staging. It has no bytes: only contracts read it.
#[derive(Drop)]
pub(crate) struct Needs {
    needs: Snapshot<Vec<Need>>,
}

impl Model for Needs {
    ghost use Rattle.std.specs.Prelude.{List};
    ghost use Rattle.std.specs.Coded.{coded_list};
    ghost use Rattle.stage_core.specs.declared.need.Need.{Need};
    ghost use Rattle.stage_core.specs.contracts.need.Need as need;

    ghost Value = { List Need };

    ghost coded = { coded_list need.the_row.coded };

    ghost view = { λ n. n.needs.value.items };
}

impl Needs {
    /// These files. It takes no memory.
    pub(crate) fn of(needs: &Vec<Need>) -> Needs
        ensures { result ≡ needs.now.items }
    {
        Needs {
            needs: Snapshot::of(needs),
        }
    }
}

/// The answers that a staging took, the oldest first. They have no bytes: only contracts read them.
#[derive(Drop)]
pub(crate) struct Answers {
    answers: Vec<Snapshot<Answer>>,
}

impl Model for Answers {
    ghost use Rattle.std.specs.Prelude.{ℕ, List, map};
    ghost use Rattle.std.specs.Coded.{coded_list};
    ghost use Rattle.roots_api.specs.declared.answer.Answer.{Answer};
    ghost use Rattle.roots_api.specs.contracts.answer.Answer as answer;
    ghost use Rattle.roots_api.specs.contracts.content.Content as content;

    ghost Value = { List (Answer (List ℕ)) };

    ghost coded = { coded_list (answer.the_row content.the_row).coded };

    ghost view = { λ a. map (λ s. s.value) a.answers.items };
}

impl Answers {
    /// No answers. It takes no memory.
    pub(crate) fn new(alloc: Global) -> Answers
        ensures { result ≡ [] }
    {
        Answers {
            answers: Vec::new(alloc),
        }
    }

    /// Adds an answer.
    pub(crate) fn push(&mut self, answer: &Answer) -> Result<(), AllocError>
        ensures ok { OnOk result (self.new ≡ self.old ++ answer.now ∷ []) }
        ensures err { OnErr result (self.new ≡ self.old) }
    {
        self.answers.push(Snapshot::of(answer))?;
        Ok(())
    }

    /// Takes the last answer off. It takes no memory.
    pub(crate) fn drop_last(&mut self)
        ensures { (before : List (Answer (List ℕ))) (last : Answer (List ℕ)) → self.old ≡ before ++ last ∷ [] → self.new ≡ before }
    {
        let _ = self.answers.pop();
    }
}
