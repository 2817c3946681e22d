ghost use Rattle.std.specs.Prelude.{◌≡◌, ℕ, Bool, true};
ghost use Rattle.eb_bytes.specs.Text.{Text};
ghost use Rattle.bash_patterns.specs.Matching.{repeated};
ghost use Rattle.bash_patterns.specs.Parts.{IsMadeOf};
ghost use Rattle.bash_patterns.specs.Places.{AreMatches, IsGreatest, IsLeast, IsLeftmost, all_matches, greatest, least, leftmost};

/// What repeats a form is what can be cut into any number of parts, empty or not, each of which matches the form.
pub fn repeats_are_any_parts()
    ensures made { (m : Text → Bool) (t : Text) → repeated m t ≡ true → IsMadeOf m t }
    ensures repeats { (m : Text → Bool) (t : Text) → IsMadeOf m t → repeated m t ≡ true }
{}

/// The places that the searches find are the least and the greatest of all that pass, and the leftmost match is the
/// longest that begins at the first place at which one begins.
pub fn searches_find_places()
    ensures least { (test : ℕ → Bool) (n : ℕ) → IsLeast test n (least test n) }
    ensures greatest { (test : ℕ → Bool) (n : ℕ) → IsGreatest test n (greatest test n) }
    ensures leftmost { (m : Text → Bool) (t : Text) (from : ℕ) → IsLeftmost m t from (leftmost m t from) }
{}

/// All matches are, from left to right, each the next that has a byte and the longest that begins where it does, and
/// none is left after the last.
pub fn all_matches_are_next_ones()
    ensures { (m : Text → Bool) (t : Text) → AreMatches m t 0 (all_matches m t) }
{}
