//! Laws of replies, for all of them.
ghost use Rattle.std.specs.Prelude.{◌≡◌, ◌∷◌};
ghost use Rattle.line_words.specs.Spelling.{space};
ghost use Rattle.reply_text.specs.Replies.{reply_bytes};
ghost use Rattle.reply_text.specs.declared.reply.Reply.{Reply};
ghost use Rattle.reply_laws.specs.Kept.{IsReply, IsSameReply};
ghost use Rattle.reply_laws.specs.Words.{detail_words, first_words, spelt};

/// A reply's bytes are its lines: one of its first words, and behind it, in order, one for each row that it lists. Each word stands behind
/// one space, so a first line begins with the word and a line of detail with two spaces.
pub fn replies_are_lines()
    ensures { (reply : Reply) → space ∷ reply_bytes reply ≡ spelt (first_words reply) (detail_words reply) }
{}

/// The bytes of a reply tell its lines, and the words of each: two replies with the same bytes have the same words, line by line.
pub fn one_list_of_words()
    ensures { (reply other : Reply) → reply_bytes reply ≡ reply_bytes other → (first_words reply ≡ first_words other) × (detail_words reply ≡ detail_words other) }
{}

/// The bytes of a reply tell the reply: no two replies have the same bytes, but the lists of no synchronisation and of no forwarding sessions.
pub fn one_reply()
    ensures { (reply other : Reply) → IsReply reply → IsReply other → reply_bytes reply ≡ reply_bytes other → IsSameReply reply other }
{}
