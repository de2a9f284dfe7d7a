//! What follows from the definitions alone.

ghost use Rattle.std.specs.Prelude.{◌≡◌, ℕ, List, ◌∷◌, true};
ghost use Rattle.std.specs.List.{Contains};
ghost use Rattle.mx_name.specs.Names.{is_free};
ghost use Rattle.mx_request.specs.declared.replies.Reply.{Reply};
ghost use Rattle.mx_request.specs.declared.requests.Request.{Request};
ghost use Rattle.mx_request.specs.Classes.{class_of, words_of};
ghost use Rattle.mx_request.specs.ReplyTexts.{fits_reply, reply_text};
ghost use Rattle.mx_request.specs.RequestTexts.{request_fields, request_text, fits_request};

/// Two requests that have one line are the same, and no line has a newline or a `=` within.
#[tactic(auto, using(crate::proofs::ForeignLaws::newline_free, crate::proofs::ForeignLaws::equals_free))]
pub fn each_request_has_its_own_line()
    ensures own { (one other : Request) → fits_request one ≡ true → fits_request other ≡ true
        → request_text one ≡ request_text other → one ≡ other }
    ensures line { (request : Request) → fits_request request ≡ true → is_free 10 (request_text request) ≡ true }
    ensures apart { (request : Request) → fits_request request ≡ true → is_free 61 (request_text request) ≡ true }
{}

/// Two replies that have one text are the same, and no text of a reply has a newline within.
#[tactic(auto, using(crate::proofs::ReplyLaws::reply_newline_free))]
pub fn each_reply_has_its_own_text()
    ensures own { (one other : Reply) → fits_reply one ≡ true → fits_reply other ≡ true
        → reply_text one ≡ reply_text other → one ≡ other }
    ensures line { (reply : Reply) → fits_reply reply ≡ true → is_free 10 (reply_text reply) ≡ true }
{}

/// The first word of a request's line tells who may make it.
pub fn the_first_word_tells_who_asks()
    ensures { (request : Request) (word : List ℕ) (fields : List (List ℕ)) → request_fields request ≡ word ∷ fields
        → Contains (words_of (class_of request)) word }
{}
