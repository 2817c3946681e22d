ghost use Rattle.std.specs.Prelude.{◌≡◌, Some, codes, true};
ghost use Rattle.std.specs.List.{list_all};
ghost use Rattle.eb_bytes.specs.Text.{Text};
ghost use Rattle.version_funcs.specs.Byte.{is_separator};
ghost use Rattle.version_funcs.specs.Laws.{IsAntisymmetric, IsReflexive, IsTransitive, IsUnambiguous};
ghost use Rattle.version_funcs.specs.Maximal.{are_maximal};
ghost use Rattle.version_funcs.specs.Pieces.{joined, pieces};
ghost use Rattle.version_funcs.specs.Range.{cut_text};

/// No text spells two versions.
pub fn text_spells_one_version()
    ensures { IsUnambiguous }
{}

/// A version is equal to itself in the order of versions.
pub fn order_is_reflexive()
    ensures { IsReflexive }
{}

/// Where a version is greater than another, the other is less than it.
pub fn order_is_antisymmetric()
    ensures { IsAntisymmetric }
{}

/// Where a version is at most another, and this at most a third, the first is at most the third.
pub fn order_is_transitive()
    ensures { IsTransitive }
{}

/// The pieces of a text, one after the other, are the text.
pub fn pieces_make_up_the_text()
    ensures { (text : Text) → joined (pieces text) ≡ text }
{}

/// Each component of a text is a maximal run of digits or of letters, and each separator is of other bytes.
pub fn components_are_maximal_runs()
    ensures first { (text : Text) → list_all is_separator (pieces text).first ≡ true }
    ensures rest { (text : Text) → are_maximal (pieces text).rest ≡ true }
{}

/// From place 0 to the end the whole text is cut out.
pub fn whole_range_cuts_out_the_whole_text()
    ensures { (text : Text) → cut_text (codes "0-") text ≡ Some text }
{}
