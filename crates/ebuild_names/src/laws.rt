ghost use Rattle.std.specs.Prelude.{◌≡◌, None, Some};
ghost use Rattle.std.specs.Cmp.{IsTotalOrder};
ghost use Rattle.std.specs.declared.cmp.Ordering.TheVariants.{Equal};
ghost use Rattle.ebuild_names.specs.Laws.{BadIsOne, FileIsFullName, FullNameHasOneCut, FullNameHasOnePath, FullNameHasRevision, FullNameHasVersion, NamedIsNotBad, NamesAreOne};
ghost use Rattle.ebuild_names.specs.BadKind.{bad_kind};
ghost use Rattle.ebuild_names.specs.Path.{GivesNames, IsBad, path_order};

use crate::path::{EbuildPath, NameKind, Names};

/// A path either gives names or is bad in one part; and it gives the names in one way.
pub fn path_has_one_answer()
    ensures names { NamesAreOne }
    ensures not_both { NamedIsNotBad }
    ensures bad { BadIsOne }
{}

/// What `bad_kind` finds from the left is the first bad part of a path, and nothing where the path gives
/// names.
pub fn bad_kind_is_the_first_bad_part()
    ensures bad { (at : EbuildPath) (kind : NameKind) → IsBad at kind → bad_kind at ≡ Some kind }
    ensures none { (at : EbuildPath) (names : Names) → GivesNames at names → bad_kind at ≡ None }
{}

/// The file's name is `PF` and `.ebuild`; `PF` is `PN`, a hyphen and `PVR`; and it is `P`, with a hyphen and `PR` after
/// it where a revision is written.
pub fn names_make_up_the_full_name()
    ensures file { FileIsFullName }
    ensures version { FullNameHasVersion }
    ensures revision { FullNameHasRevision }
{}

/// `PF` says where `PN` ends. So two paths with one category and one `PF` are the same.
pub fn full_name_says_the_path()
    ensures cut { FullNameHasOneCut }
    ensures path { FullNameHasOnePath }
{}

/// Paths order by category, then by package, then by file, each byte by byte. That is a total order, and paths that it
/// calls equal are the same.
pub fn paths_order_by_their_parts()
    ensures order { ⟦<EbuildPath as Ord>⟧.cmp ≡ path_order }
    ensures total { IsTotalOrder path_order }
    ensures exact { (a b : EbuildPath) → path_order a b ≡ Equal → a ≡ b }
{}
