ghost use Rattle.eb_grammar.specs.Laws.{
  BodyTakes,
  FillsBodies,
  ItemTakes,
  ItemsKeep,
  NeedsNoBound,
  NewlineAnswers,
  OwnsMarks,
  SharesBeginnings,
  WordsTake,
};

/// A repetition does not depend on how many turns it may make, where these are as many as the bytes that are left.
pub fn repetition_needs_no_bound<T>()
    ensures { NeedsNoBound T }
{}

/// Two alternatives that begin alike are the beginning and then their rests as alternatives.
pub fn alternatives_share_their_beginning<T, U>()
    ensures { SharesBeginnings T U }
{}

/// After a newline each here-document that waited has its body.
pub fn newline_answers_each_mark()
    ensures { NewlineAnswers }
{}

/// A list of commands has here-documents of its own: none waits at its end, and their bodies are in its redirections.
pub fn items_own_their_marks()
    ensures { OwnsMarks }
{}

/// The redirection of a here-document holds the body of its mark.
pub fn redirection_holds_its_body()
    ensures { FillsBodies }
{}

/// Each word, item and body of commands takes a byte, and a list of commands ends at or before the text's end.
pub fn readings_take_bytes()
    ensures words { WordsTake }
    ensures item { ItemTakes }
    ensures body { BodyTakes }
    ensures items { ItemsKeep }
{}
