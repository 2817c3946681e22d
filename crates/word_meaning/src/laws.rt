//! Laws: facts about the definitions that no single call shows. The first four say that an expansion gives no step back
//! and loses no name that was asked, the others that it closes what it opens, where this holds of each substitution in it.
ghost use Rattle.word_meaning.specs.Laws.{ElementsLast, ExpansionsClose, FieldsLast, TextsClose, TextsLast, WordsLast};

/// It holds of a list of words.
pub fn fields_last()
    ensures { FieldsLast }
{}

/// It holds of an assigned value, of a word that gives one text, and of a pattern.
pub fn words_last()
    ensures { WordsLast }
{}

/// It holds of a here-document, of an arithmetic text and of the subscript of an assignment.
pub fn texts_last()
    ensures { TextsLast }
{}

/// It holds of the literal of an array.
pub fn elements_last()
    ensures { ElementsLast }
{}

/// An expansion of words closes what it opens: a list of words, an array's literal, an assigned value, a word that gives one
/// text, and a pattern.
pub fn expansions_close()
    ensures { ExpansionsClose }
{}

/// So does a here-document, an arithmetic text and the subscript of an assignment.
pub fn texts_close()
    ensures { TextsClose }
{}
