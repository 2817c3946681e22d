ghost use Rattle.grammar_laws.specs.Marks.{EachIgnoresMarks};
ghost use Rattle.grammar_laws.specs.Nestings.{MoreRoomHasNone, NumbersDiffer, OtherMarksHaveNone};
ghost use Rattle.grammar_laws.specs.Refined.{MoreRoomRefines};

/// Where more nestings may be opened, each rule has the node that it had, and none where it had none. Only where it
/// nested too deep it may have another outcome.
pub fn more_room_refines()
    ensures { MoreRoomRefines }
{}

/// A rule on the level of words says the same whatever here-documents wait and whatever bodies were read, and these
/// stay as they are.
pub fn words_ignore_marks()
    ensures { EachIgnoresMarks }
{}

/// A nesting on the level of words that has no reading has none where more nestings may be opened, nor where other
/// here-documents wait.
pub fn no_reading_stays()
    ensures room { MoreRoomHasNone }
    ensures marks { OtherMarksHaveNone }
{}

/// No two nestings have the same number.
pub fn numbers_differ()
    ensures { NumbersDiffer }
{}
