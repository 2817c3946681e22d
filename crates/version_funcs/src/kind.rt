ghost use Rattle.std.specs.Prelude.{◌≡◌};
ghost use Rattle.version_funcs.specs.Version.{kind_rank};
ghost use Rattle.version_funcs.specs.Order.{longer_order};
ghost use Rattle.version_funcs.specs.Walk.{kind_named as kind_of_name};

use std::cmp::Ordering;

/// The kinds of suffixes, the least first.
#[derive(Clone, Copy)]
pub enum SuffixKind {
    /// `_alpha`
    Alpha,
    /// `_beta`
    Beta,
    /// `_pre`
    Pre,
    /// `_rc`
    Candidate,
    /// `_p`
    Patch,
}

impl SuffixKind {
    // The place of the kind among the kinds, from 0 on.
    pub(crate) fn rank(self) -> u8
        ensures { result ≡ kind_rank self }
    {
        match self {
            SuffixKind::Alpha => 0,
            SuffixKind::Beta => 1,
            SuffixKind::Pre => 2,
            SuffixKind::Candidate => 3,
            SuffixKind::Patch => 4,
        }
    }

    // How a longer list of suffixes, whose next suffix has this kind, compares with the shorter one.
    pub(crate) fn longer_order(self) -> Ordering
        ensures { result ≡ longer_order self }
    {
        match self {
            SuffixKind::Patch => Ordering::Greater,
            _ => Ordering::Less,
        }
    }
}

// The kind of this name, if there is one.
pub(crate) fn kind_named(name: &[u8]) -> Option<SuffixKind>
    ensures { result ≡ kind_of_name name.now }
{
    if name == b"alpha".as_slice() {
        Some(SuffixKind::Alpha)
    } else if name == b"beta".as_slice() {
        Some(SuffixKind::Beta)
    } else if name == b"pre".as_slice() {
        Some(SuffixKind::Pre)
    } else if name == b"rc".as_slice() {
        Some(SuffixKind::Candidate)
    } else if name == b"p".as_slice() {
        Some(SuffixKind::Patch)
    } else {
        None
    }
}
