ghost use Rattle.std.specs.Prelude.{◌≡◌, true, filter, List, [], ◌∷◌, ◌++◌, ◌||◌, not};
ghost use Rattle.std.specs.List.{flat_map, list_all, slice_split};
ghost use Rattle.eb_bytes.specs.Text.{Text};
ghost use Rattle.shell_marks.specs.declared.marked.Mark.{Mark};
ghost use Rattle.shell_marks.specs.declared.marked.Mark.TheVariants.{Break};
ghost use Rattle.bash_split.specs.Fields.{fields};
ghost use Rattle.bash_split.specs.Laws.{divides, has_marks, is_break, is_fixed, is_separator, stays, without_empty_end};

/// The fields, one after the other, are the marks without the breaks and the bytes of results that IFS has.
pub fn fields_keep_every_other_mark()
    ensures { (ifs : Text) (ms : List Mark) → flat_map (λ field. field) (fields ifs ms) ≡ filter (stays ifs) ms }
{}

/// No field holds a break, or a byte of a result that IFS has.
pub fn no_field_holds_a_mark_that_divides()
    ensures { (ifs : Text) (ms : List Mark) → list_all (λ field. list_all (stays ifs) field) (fields ifs ms) ≡ true }
{}

/// Marks that all stay are one field, where there is one at all; and literals, quoted bytes and empty quotes stay
/// whatever IFS is.
pub fn marks_that_stay_are_one_field()
    ensures nothing { (ifs : Text) → fields ifs [] ≡ [] }
    ensures one { (ifs : Text) (m : Mark) (ms : List Mark) → list_all (stays ifs) (m ∷ ms) ≡ true → fields ifs (m ∷ ms) ≡ (m ∷ ms) ∷ [] }
    ensures fixed { (ifs : Text) (m : Mark) (ms : List Mark) → list_all is_fixed (m ∷ ms) ≡ true → fields ifs (m ∷ ms) ≡ (m ∷ ms) ∷ [] }
{}

/// What is on each side of a break is split by itself.
pub fn breaks_part_what_is_split()
    ensures { (ifs : Text) (ms ns : List Mark) → fields ifs (ms ++ Break ∷ ns) ≡ fields ifs ms ++ fields ifs ns }
{}

/// An empty IFS splits at breaks alone: the fields are what is between them, where that is not nothing.
pub fn empty_ifs_splits_at_breaks_alone()
    ensures { (ms : List Mark) → fields [] ms ≡ filter has_marks (slice_split is_break ms) }
{}

/// Where IFS splits at blanks alone, the fields are what is between these and the breaks, where that is not nothing.
pub fn blanks_split_into_runs()
    ensures { (ifs : Text) (ms : List Mark) → list_all (λ m. not (is_separator ifs m)) ms ≡ true → fields ifs ms ≡ filter has_marks (slice_split (divides ifs) ms) }
{}

/// Where IFS splits at other bytes alone, the fields are what is between them; but where nothing follows the last of
/// them, that is no field.
pub fn separators_each_end_a_field()
    ensures { (ifs : Text) (ms : List Mark) → list_all (λ m. stays ifs m || is_separator ifs m) ms ≡ true → fields ifs ms ≡ without_empty_end (slice_split (divides ifs) ms) }
{}
