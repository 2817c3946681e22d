ghost use Rattle.std.specs.Prelude.{◌≡◌, IfOk};
ghost use Rattle.std.specs.Option.{option_map};
ghost use Rattle.eb_files.specs.Paths.{path_of};
ghost use Rattle.egencache.specs.Request.{as_place, asked_at, place_of, request_of};
ghost use Rattle.egencache.specs.Placed.{placed, requested};

use eb_bytes::{Bytes, Memory};
use eb_files::Path;
use ebuild_names::EbuildPath;
use std::alloc::Global;

// The three parts of `CAT/PN/FILE`.
#[derive(Clone, Copy)]
struct Parts<'a> {
    category: &'a [u8],
    name: &'a [u8],
    file: &'a [u8],
}

/// One ebuild of a repository: the path of its file, and its path in the repository, as it was written and in parts.
#[derive(Drop)]
pub struct Request<'a> {
    pub path: Path,
    pub at: &'a [u8],
    pub place: EbuildPath,
}

// These three parts, where none is empty and the last ends in `.ebuild`.
fn as_parts<'a>(category: &'a [u8], name: &'a [u8], file: &'a [u8]) -> Option<Parts<'a>>
    ensures { option_map placed result ≡ as_place category.now name.now file.now }
{
    match (category, name, file) {
        ([_, ..], [_, ..], [_, ..]) if file.ends_with(b".ebuild") => Some(Parts {
            category,
            name,
            file,
        }),
        _ => None,
    }
}

impl<'a> Parts<'a> {
    // The parts of `CAT/PN/FILE`; none where the text has not exactly two slashes, where a part of it is
    // empty, or where it does not end in `.ebuild`.
    fn read(at: &'a [u8]) -> Option<Parts<'a>>
        ensures { option_map placed result ≡ place_of at.now }
    {
        let mut parts = at.split(|byte| *byte == b'/');
        let category = parts.next()?;
        let name = parts.next()?;
        let file = parts.next()?;
        match parts.next() {
            Some(_) => None,
            None => as_parts(category, name, file),
        }
    }
}

// The parts of `CAT/PN/FILE`, copied.
fn read_place(alloc: Global, at: &[u8]) -> Result<Option<EbuildPath>, Memory>
    ensures { IfOk result (λ place. place ≡ place_of at.now) }
{
    let Some(parts) = Parts::read(at) else {
        return Ok(None);
    };
    Ok(Some(EbuildPath {
        category: Bytes::from_slice(alloc, parts.category)?,
        package: Bytes::from_slice(alloc, parts.name)?,
        file: Bytes::from_slice(alloc, parts.file)?,
    }))
}

/// What the arguments ask for; none where they are not `print REPO CAT/PN/FILE`, where REPO is empty without the
/// slashes at its end, or where an argument holds a byte 0.
///
/// # Errors
/// `Memory` where there is no room for the path.
pub fn read_request<'a>(alloc: Global, words: &'a [Bytes]) -> Result<Option<Request<'a>>, Memory>
    ensures { IfOk result (λ request. option_map requested request ≡ request_of words.now) }
{
    match words {
        [command, repository, at] if command.as_slice() == b"print".as_slice() => {
            read_below(alloc, repository.as_slice(), at.as_slice())
        }
        _ => Ok(None),
    }
}

fn read_below<'a>(
    alloc: Global,
    repository: &[u8],
    at: &'a [u8],
) -> Result<Option<Request<'a>>, Memory>
    ensures { IfOk result (λ request. option_map requested request ≡ asked_at (path_of repository.now) at.now) }
{
    let Some(root) = Path::read(alloc, repository)? else {
        return Ok(None);
    };
    if at.contains(&0) {
        return Ok(None);
    }
    let Some(place) = read_place(alloc, at)? else {
        return Ok(None);
    };
    let path = root.join(alloc, at)?;
    Ok(Some(Request { path, at, place }))
}
