//! Laws of words, for all of them. Each law is the contract of a function that does nothing.
ghost use Rattle.std.specs.Prelude.{◌≡◌, ◌<◌, ◌^◌, ◌↔◌, ℕ, Bool, List, Some};
ghost use Rattle.command_words.specs.Identifier.{uuid_text};
ghost use Rattle.command_words.specs.Keywords.{mode_by, mode_word, phase_by, phase_word, stream_side_by, stream_side_word, switch_by, switch_word};
ghost use Rattle.command_words.specs.declared.stream_side.StreamSide.{StreamSide};
ghost use Rattle.mode_rules.specs.declared.mode.Mode.{Mode};
ghost use Rattle.mode_rules.specs.declared.phase.Phase.{Phase};

/// Each mode has one word, and no other word stands for it. So it is with phases, ends of a stream and switches.
pub fn keywords_have_one_word()
    ensures modes { (mode : Mode) (word : List ℕ) → (mode_by word ≡ Some mode) ↔ (word ≡ mode_word mode) }
    ensures phases { (phase : Phase) (word : List ℕ) → (phase_by word ≡ Some phase) ↔ (word ≡ phase_word phase) }
    ensures ends { (side : StreamSide) (word : List ℕ) → (stream_side_by word ≡ Some side) ↔ (word ≡ stream_side_word side) }
    ensures switches { (on : Bool) (word : List ℕ) → (switch_by word ≡ Some on) ↔ (word ≡ switch_word on) }
{}

/// A UUID tells its number.
pub fn one_number()
    ensures { (id other : ℕ) → id < 2 ^ 128 → other < 2 ^ 128 → uuid_text id ≡ uuid_text other → id ≡ other }
{}
