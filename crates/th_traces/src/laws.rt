//! Laws of the definitions. Each function does nothing: its contract is the law.
ghost use Rattle.std.specs.Prelude.{◌≡◌, ℕ, List, Some};
ghost use Rattle.th_model.specs.declared.broadcast.BCall.{BCall};
ghost use Rattle.th_model.specs.declared.broadcast.BReply.{BReply};
ghost use Rattle.th_model.specs.declared.watch.WCall.{WCall};
ghost use Rattle.th_model.specs.declared.watch.WReply.{WReply};
ghost use Rattle.th_traces.specs.Pictures.{Begun, leads};
ghost use Rattle.th_traces.specs.declared.place.Place.TheVariants.{Nothing};
ghost use Rattle.th_traces.specs.Broadcast as broadcast;
ghost use Rattle.th_traces.specs.BroadcastWords as broadcast_words;
ghost use Rattle.th_traces.specs.Spelled.{Bytes, call_line, reply_line};
ghost use Rattle.th_traces.specs.Shown.{Spells};
ghost use Rattle.th_traces.specs.Watch as watch;
ghost use Rattle.th_traces.specs.WatchWords as watch_words;
ghost use Rattle.th_traces.specs.declared.head.Head.{Head};
ghost use Rattle.th_traces.specs.declared.head.Version.{Version};
ghost use Rattle.th_traces.specs.declared.picture.Picture.{Picture};

/// What is read in the first line of a broadcast channel's entry is a call and the line its
/// spelling, and each call's spelling is read as that call.
pub fn one_spelling_of_broadcast_calls()
    ensures found { (version : Version) (line : List ℕ) (call : BCall Bytes) →
        broadcast_words.call_of version line ≡ Some call →
        broadcast_words.IsCall version call × (line ≡ call_line (broadcast.call_fields call)) }
    ensures again { (version : Version) (call : BCall Bytes) →
        broadcast_words.IsCall version call →
        broadcast_words.call_of version (call_line (broadcast.call_fields call)) ≡ Some call }
{}

/// The same of the second line and the reply to the call.
pub fn one_spelling_of_broadcast_replies()
    ensures found { (call : BCall Bytes) (line : List ℕ) (reply : BReply Bytes) →
        broadcast_words.reply_of call line ≡ Some reply →
        broadcast_words.IsReplyTo call reply × (line ≡ reply_line (broadcast.reply_fields reply)) }
    ensures again { (call : BCall Bytes) (reply : BReply Bytes) →
        broadcast_words.IsReplyTo call reply →
        broadcast_words.reply_of call (reply_line (broadcast.reply_fields reply)) ≡ Some reply }
{}

/// The same of the first line of a watch channel's entry.
pub fn one_spelling_of_watch_calls()
    ensures found { (line : List ℕ) (call : WCall Bytes) →
        watch_words.call_of line ≡ Some call →
        watch_words.IsCall call × (line ≡ call_line (watch.call_fields call)) }
    ensures again { (call : WCall Bytes) → watch_words.IsCall call →
        watch_words.call_of (call_line (watch.call_fields call)) ≡ Some call }
{}

/// And of the second one and the reply to the call.
pub fn one_spelling_of_watch_replies()
    ensures found { (call : WCall Bytes) (line : List ℕ) (reply : WReply Bytes) →
        watch_words.reply_of call line ≡ Some reply →
        watch_words.IsReplyTo call reply × (line ≡ reply_line (watch.reply_fields reply)) }
    ensures again { (call : WCall Bytes) (reply : WReply Bytes) →
        watch_words.IsReplyTo call reply →
        watch_words.reply_of call (reply_line (watch.reply_fields reply)) ≡ Some reply }
{}

/// What lines are read as is a sound picture, and the lines its spelling; and the spelling of each sound picture is read as
/// that picture.
pub fn one_spelling_of_pictures()
    ensures found { (lines : List (List ℕ)) (head : Head) (picture : Picture) →
        leads Nothing lines ≡ Some (Begun head picture) → Spells head picture lines }
    ensures again { (lines : List (List ℕ)) (head : Head) (picture : Picture) →
        Spells head picture lines → leads Nothing lines ≡ Some (Begun head picture) }
{}
