ghost use Rattle.std.specs.Prelude.{◌≡◌, ◌≤◌, ◌++◌, ◌∷◌, IfOk, IsTrue};
ghost use Rattle.std.specs.Option.{option_map};
ghost use Rattle.eb_files.specs.Paths.{is_path, path_of, without_slashes};

use eb_bytes::{Bytes, Memory};
use std::alloc::Global;
use std::marker::Model;

/// A file's path: at least one byte, and none of them 0. Contracts see it as the list of these bytes; paths are
/// ordered byte by byte.
#[derive(Debug, Drop, PartialEq, Eq, PartialOrd, Ord)]
pub struct Path {
    bytes: Bytes,
}

impl Model for Path {
    ghost use Rattle.std.specs.Prelude.{List, ℕ, IsTrue};
    ghost use Rattle.std.specs.Coded.{coded_list, coded_ℕ};
    ghost use Rattle.eb_files.specs.Paths.{is_path};

    ghost Value = { List ℕ };

    ghost coded = { coded_list coded_ℕ };

    ghost view = { λ p. p.bytes };

    ghost inverse = { λ bytes. record { bytes = bytes } };

    ghost invariant = { λ p. IsTrue (is_path p.bytes) };
}

impl Path {
    /// The path that a word names: the word without the `/` bytes at its end. None where nothing is left then, or
    /// where a byte 0 is.
    ///
    /// # Errors
    /// `Memory` where there is no room for the bytes.
    pub fn read(alloc: Global, word: &[u8]) -> Result<Option<Path>, Memory>
        ensures { IfOk result (λ path. path ≡ path_of word.now) }
    {
        let rest = cut_slashes(word);
        if !names_a_file(rest) {
            return Ok(None);
        }
        let bytes = Bytes::from_slice(alloc, rest)?;
        Ok(Some(Path { bytes }))
    }

    /// This path, a `/` and the part.
    ///
    /// # Errors
    /// `Memory` where there is no room for the bytes.
    pub fn join(&self, alloc: Global, part: &[u8]) -> Result<Path, Memory>
        requires { IsTrue (is_path part.now) }
        ensures { IfOk result (λ path. path ≡ self.now ++ 47 ∷ part.now) }
    {
        let mut bytes = Bytes::from_slice(alloc, self.bytes.as_slice())?;
        bytes.extend(b"/")?;
        bytes.extend(part)?;
        Ok(Path { bytes })
    }

    /// The bytes, at least one and none of them 0.
    pub fn as_slice(&self) -> &[u8]
        ensures bytes { result.now ≡ self.now }
        ensures path { IsTrue (is_path self.now) }
    {
        self.bytes.as_slice()
    }

    /// The same path again.
    ///
    /// # Errors
    /// `Memory` where there is no room for the bytes.
    pub fn copy(&self, alloc: Global) -> Result<Path, Memory>
        ensures { IfOk result (λ path. path ≡ self.now) }
    {
        let bytes = Bytes::from_slice(alloc, self.bytes.as_slice())?;
        Ok(Path { bytes })
    }
}

// The word without the `/` bytes at its end.
fn cut_slashes(word: &[u8]) -> &[u8]
    ensures { result.now ≡ without_slashes word.now }
{
    let mut end = word.len();
    while end > 0 && word[end - 1] == b'/' {
        end -= 1;
    }
    &word[..end]
}

// Whether these bytes are a path.
fn names_a_file(bytes: &[u8]) -> bool
    ensures { result ≡ is_path bytes.now }
{
    !bytes.is_empty() && !bytes.contains(&0)
}
