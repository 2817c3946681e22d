ghost use Rattle.std.specs.Prelude.{◌≡◌, ◌≢◌, ◌↔◌, ◌++◌, ◌∷◌, Err, IfErr, IfOk, MatchOption, true, ◌==◌};
ghost use Rattle.std.specs.List.{position};
ghost use Rattle.eb_bytes.specs.Text.{Text};
ghost use Rattle.version_funcs.specs.Version.{IsVersionText};
ghost use Rattle.ebuild_names.specs.BadKind.{bad_kind as first_bad_kind};
ghost use Rattle.ebuild_names.specs.Form.{is_category_name, IsPackageName};
ghost use Rattle.ebuild_names.specs.Path.{GivesNames, IsBad, IsFileOf, kind_name, with_version as with_version_text};
ghost use Rattle.ebuild_names.specs.Walk.{IsVersionAt, before_hyphen, after_hyphen, from_hyphen, texts_of as texts_of_version};

use crate::form::{is_category, is_package};
use eb_bytes::{Bytes, Memory};
use std::alloc::Global;
use std::fmt;
use thiserror::Error;
use version_funcs::read_version;

/// The path of an ebuild in its repository. Paths order by category, then by package, then by file, each byte by byte.
#[derive(Debug, Drop, PartialEq, Eq, PartialOrd, Ord)]
pub struct EbuildPath {
    /// The name of the folder of its category.
    pub category: Bytes,
    /// The name of the folder of its package.
    pub package: Bytes,
    /// The name of its file.
    pub file: Bytes,
}

/// The texts that the path of an ebuild gives (Package Manager Specification, "Ebuild-defined Variables").
#[derive(Debug, Drop, PartialEq, Eq)]
pub struct Names {
    /// `CATEGORY`
    pub category: Bytes,
    /// `PN`: the package's name.
    pub pn: Bytes,
    /// `PV`: the version without its revision.
    pub pv: Bytes,
    /// `PR`: the revision as it is written, with its `r`, or `r0`.
    pub pr: Bytes,
    /// `P`: the package's name, a hyphen, and the version without its revision.
    pub p: Bytes,
    /// `PVR`: the version as it is written.
    pub pvr: Bytes,
    /// `PF`: the package's name, a hyphen, and the version as it is written.
    pub pf: Bytes,
}

/// The parts of a path.
#[derive(Clone, Copy, Debug, PartialEq, Eq)]
pub enum NameKind {
    Category,
    Package,
    File,
}

impl NameKind {
    /// The kind's word: `category`, `package` or `file`.
    pub fn name(self) -> &'static [u8]
        ensures { result.now ≡ kind_name self }
    {
        match self {
            NameKind::Category => b"category",
            NameKind::Package => b"package",
            NameKind::File => b"file",
        }
    }
}

impl fmt::Display for NameKind {
    fn fmt<W: fmt::Write>(&self, f: &mut fmt::Formatter<W>) -> fmt::Result {
        f.write_str(match self {
            NameKind::Category => "category",
            NameKind::Package => "package",
            NameKind::File => "file",
        })
    }
}

/// Why a path gives no names.
#[derive(Clone, Copy, Debug, PartialEq, Eq, Error)]
pub enum NameErr {
    /// This part of the path does not have the form of such a name, and those before it have.
    #[error("bad {0} name")]
    Bad(NameKind),
    /// Out of memory.
    #[error("out of memory")]
    Memory,
}

impl From<Memory> for NameErr {
    ghost use Rattle.std.specs.Prelude.{◌≡◌};
    ghost use Rattle.ebuild_names.specs.declared.path.NameErr.TheVariants as why;

    ghost from_gives = { λ _ error. error ≡ why.Memory };

    fn from(_error: Memory) -> NameErr {
        NameErr::Memory
    }
}

// What stands after this text at the front.
fn after_prefix<'a>(prefix: &[u8], text: &'a [u8]) -> Option<&'a [u8]>
    ensures { MatchOption result ((rest : Text) → text.now ≢ prefix.now ++ rest) (λ rest. text.now ≡ prefix.now ++ rest.now) }
{
    text.strip_prefix(prefix)
}

// What stands before this text at the end.
fn before_suffix<'a>(suffix: &[u8], text: &'a [u8]) -> Option<&'a [u8]>
    ensures { MatchOption result ((rest : Text) → text.now ≢ rest ++ suffix.now) (λ rest. text.now ≡ rest.now ++ suffix.now) }
{
    text.strip_suffix(suffix)
}

// The version that the name of a file has between the package's name with its hyphen and `.ebuild`.
fn file_version<'a>(pn: &[u8], file: &'a [u8]) -> Option<&'a [u8]>
    ensures { MatchOption result (¬ IsFileOf pn.now file.now) (λ version. IsVersionAt pn.now file.now version.now) }
{
    let after = after_prefix(pn, file)?;
    let after_hyphen = after_prefix(b"-", after)?;
    let version = before_suffix(b".ebuild", after_hyphen)?;
    if read_version(version) {
        Some(version)
    } else {
        None
    }
}

// The version of a path, or its first bad part.
fn path_version(at: &EbuildPath) -> Result<&[u8], NameKind>
    ensures ok { IfOk result (λ version. IsVersionAt at.now.«package» at.now.file version.now) }
    ensures category { IfOk result (λ version. is_category_name at.now.category ≡ true) }
    ensures name { IfOk result (λ version. IsPackageName at.now.«package») }
    ensures bad { IfErr result (λ kind. IsBad at.now kind) }
{
    if !is_category(at.category.as_slice()) {
        return Err(NameKind::Category);
    }
    if !is_package(at.package.as_slice()) {
        return Err(NameKind::Package);
    }
    match file_version(at.package.as_slice(), at.file.as_slice()) {
        Some(version) => Ok(version),
        None => Err(NameKind::File),
    }
}

// The place of the first hyphen.
fn hyphen(text: &[u8]) -> Option<usize>
    ensures { result ≡ position (λ byte. byte == 45) text.now }
{
    text.iter().position(|byte| *byte == b'-')
}

// The version without its revision, and the revision with its hyphen, or nothing.
fn split_revision(version: &[u8]) -> (&[u8], &[u8])
    ensures version { result.0.now ≡ before_hyphen version.now }
    ensures revision { result.1.now ≡ from_hyphen version.now }
{
    match hyphen(version) {
        Some(place) => version.split_at(place),
        None => (version, &[]),
    }
}

// The revision after its hyphen, `r0` where there is none.
fn revision_name(revision: &[u8]) -> &[u8]
    ensures { result.now ≡ after_hyphen revision.now }
{
    match revision {
        [] => b"r0",
        [_, name @ ..] => name,
    }
}

// A package's name, a hyphen and a version.
fn with_version(alloc: Global, pn: &[u8], version: &[u8]) -> Result<Bytes, Memory>
    ensures { IfOk result (λ text. text ≡ with_version_text pn.now version.now) }
{
    let mut text = Bytes::from_slice(alloc, pn)?;
    text.extend(b"-")?;
    text.extend(version)?;
    Ok(text)
}

// The texts of a path with this version.
fn texts_of(alloc: Global, at: &EbuildPath, version: &[u8]) -> Result<Names, Memory>
    ensures { IfOk result (λ names. names ≡ texts_of_version at.now.category at.now.«package» version.now) }
{
    let pn = at.package.as_slice();
    let (plain, revision) = split_revision(version);
    Ok(Names {
        category: Bytes::from_slice(alloc, at.category.as_slice())?,
        pn: Bytes::from_slice(alloc, pn)?,
        pv: Bytes::from_slice(alloc, plain)?,
        pr: Bytes::from_slice(alloc, revision_name(revision))?,
        p: with_version(alloc, pn, plain)?,
        pvr: Bytes::from_slice(alloc, version)?,
        pf: with_version(alloc, pn, version)?,
    })
}

/// The first part of a path that does not have the form of such a name, `None` where the path gives names. Takes no
/// memory.
pub fn bad_kind(at: &EbuildPath) -> Option<NameKind>
    ensures first { result ≡ first_bad_kind at.now }
    ensures bad { (kind : NameKind) → (result ≡ Some kind) ↔ IsBad at.now kind }
{
    path_version(at).err()
}

/// The names that the path of an ebuild gives: its category is one, its package's folder has a package's name, and its
/// file has the package's name, a hyphen, a version and `.ebuild` (Package Manager Specification, "Names and
/// Versions").
///
/// # Errors
/// `Bad` exactly where one of the three is not so, with the first such part, as `bad_kind` gives it; that takes no
/// memory. `Memory` where there is no room for the names.
pub fn read_path(alloc: Global, at: &EbuildPath) -> Result<Names, NameErr>
    ensures ok { IfOk result (λ names. GivesNames at.now names) }
    ensures bad { (kind : NameKind) → (result ≡ Err (NameErr.Bad kind)) ↔ IsBad at.now kind }
{
    match path_version(at) {
        Ok(version) => Ok(texts_of(alloc, at, version)?),
        Err(kind) => Err(NameErr::Bad(kind)),
    }
}
