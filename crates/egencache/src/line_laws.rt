ghost use Rattle.std.specs.Prelude.{◌≡◌, ◌↔◌};
ghost use Rattle.eb_bytes.specs.Text.{Text};
ghost use Rattle.egencache.specs.Plain.{plain_line, Nothing, Assigns};
ghost use Rattle.egencache.specs.PlainForm.{IsNothing, IsAssignment};

/// The lines that say nothing are the blank lines and the comments, as they are written.
pub fn nothing_is_blank_or_comment()
    ensures { (line : Text) → plain_line line ≡ Nothing ↔ IsNothing line }
{}

/// The lines that assign a value to a name are the lines that are written as such an assignment.
pub fn assigned_is_written_so()
    ensures { (line name value : Text) → plain_line line ≡ Assigns name value ↔ IsAssignment line name value }
{}
