// The law of replies.
ghost use Rattle.std.specs.Prelude.{◌≡◌, ◌≢◌, true, []};
ghost use Rattle.ov_model.specs.declared.reply.Reply.{Reply};
ghost use Rattle.ov_model.specs.Replies.{reply_text, has_text};

/// No reply is empty, but one that prints no header or lists no version; none is made so.
pub fn a_reply_is_not_empty()
    ensures { (reply : Reply) → has_text reply ≡ true → reply_text reply ≢ [] }
{}
