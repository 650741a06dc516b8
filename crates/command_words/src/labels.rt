//! The labels of a session.
ghost use Rattle.std.specs.Prelude.{◌≡◌, ◌==◌, [], cond, IfOk, OnErr};
ghost use Rattle.std.specs.List.{position};
ghost use Rattle.command_words.specs.Labels.{AreLabels, can_take, has_key, is_before, place_in, with_label};

use crate::label::Label;
use crate::label_text::LabelText;
use std::alloc::{AllocError, Global};
use std::marker::Model;

/// How many labels a session may have.
pub const MAX_LABELS: usize = 16;

/// The labels of a session: at most 16, in order of their keys, which all differ. Contracts see a list of labels.
#[derive(Debug, Drop)]
pub struct Labels {
    labels: Vec<Label>,
}

impl Model for Labels {
    ghost use Rattle.std.specs.Prelude.{List};
    ghost use Rattle.std.specs.Coded.{coded_list};
    ghost use Rattle.command_words.specs.declared.label.Label.{Label};
    ghost use Rattle.command_words.specs.contracts.label.Label as one;
    ghost use Rattle.command_words.specs.Labels.{AreLabels};

    ghost Value = { List Label };

    ghost coded = { coded_list one.the_row.coded };

    ghost view = { λ l. l.labels.items };

    ghost invariant = { λ l. AreLabels l.labels.items };
}

impl Labels {
    /// No labels. It takes no memory.
    pub fn new(alloc: Global) -> Labels
        ensures { result ≡ [] }
    {
        Labels {
            labels: Vec::new(alloc),
        }
    }

    /// Takes a label in, if there are fewer than 16 and none has its key, and says whether it did. Cost: the number of labels.
    pub fn insert(&mut self, label: Label) -> Result<bool, AllocError>
        ensures taken { IfOk result (λ taken. taken ≡ can_take label self.old) }
        ensures labels { IfOk result (λ taken. self.new ≡ cond taken (with_label label self.old) self.old) }
        ensures err { OnErr result (self.new ≡ self.old) }
    {
        if !can_take(&label, self.labels.as_slice()) {
            return Ok(false);
        }
        let at = place_in(&label.key, self.labels.as_slice());
        self.labels.insert(at, label)?;
        Ok(true)
    }

    /// The labels, in order of their keys. It takes no memory.
    pub fn as_slice(&self) -> &[Label]
        ensures value { result.now ≡ self.now }
        ensures labels { AreLabels self.now }
    {
        self.labels.as_slice()
    }

    /// Equal labels. Cost: their lengths.
    pub fn copy(&self, alloc: Global) -> Result<Labels, AllocError>
        ensures { IfOk result (λ labels. labels ≡ self.now) }
    {
        let labels = copied(alloc, self.labels.as_slice())?;
        Ok(Labels { labels })
    }
}

// Copies of these labels.
fn copied(alloc: Global, labels: &[Label]) -> Result<Vec<Label>, AllocError>
    ensures { IfOk result (λ copies. copies.items ≡ labels.now) }
{
    let mut copies = Vec::new(alloc);
    for label in labels {
        copies.push(label.copy(alloc)?)?;
    }
    Ok(copies)
}

// Whether there is room for a label, and its key is new.
fn can_take(label: &Label, labels: &[Label]) -> bool
    ensures { result ≡ can_take label.now labels.now }
{
    labels.len() < MAX_LABELS && !has_key(&label.key, labels)
}

// Whether one of the labels has the key.
fn has_key(key: &LabelText, labels: &[Label]) -> bool
    ensures { result ≡ has_key key.now labels.now }
{
    labels.iter().any(|label| label.key == *key)
}

// Whether a key stands before another.
fn is_before(key: &LabelText, other: &LabelText) -> bool
    ensures { result ≡ is_before key.now other.now }
{
    key.as_str() < other.as_str()
}

// How many labels stand before one with this key.
fn place_in(key: &LabelText, labels: &[Label]) -> usize
    ensures { result ≡ place_in key.now labels.now }
{
    match place_before(key, labels) {
        Some(at) => at,
        None => labels.len(),
    }
}

// The first label before which one with this key stands.
fn place_before(key: &LabelText, labels: &[Label]) -> Option<usize>
    ensures { result ≡ position (λ label. is_before key.now label.key) labels.now }
{
    labels.iter().position(|label| is_before(key, &label.key))
}
