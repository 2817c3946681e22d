ghost use Rattle.std.specs.Prelude.{◌≡◌, ◌↔◌, ℕ, ◌+◌, ◌<◌, length, take, None, Some};
ghost use Rattle.eb_bytes.specs.Text.{Text, lines};
ghost use Rattle.egencache.specs.Assignments.{bad_line};
ghost use Rattle.egencache.specs.PlainText.{ArePlain};

/// A text has no bad line exactly where its lines are plain together. Else the bad line's number, counted from 1, is
/// that of the first line with which they no longer are.
pub fn bad_line_is_the_first()
    ensures plain { (text : Text) → (bad_line text ≡ None) ↔ ArePlain (lines text) }
    ensures first { (text : Text) (n : ℕ) → bad_line text ≡ Some n → (before : ℕ) × (n ≡ before + 1) × (before < length (lines text)) × ArePlain (take before (lines text)) × (ArePlain (take n (lines text)) → ⊥) }
{}
