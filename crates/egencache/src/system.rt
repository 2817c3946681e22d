//! What the system's answers mean. The calls themselves are in the modules `host` and `main`.
ghost use Rattle.std.specs.Prelude.{◌≡◌, ◌≢◌, ℕ, ◌^◌, ◌<◌, ◌≤◌, [], Option, Some, IfOk, IfErr, IsErr, IsOkAnd, OnOk, drop, length, map};
ghost use Rattle.std.specs.Io.KnownBytes.{Appends};
ghost use Rattle.std.specs.IoError.{error_kind};
ghost use Rattle.std.specs.String.{string_bytes};
ghost use Rattle.std.specs.Vec.Iter.{into_iter_items};
ghost use Rattle.eb_bytes.specs.Text.{Text};
ghost use Rattle.eb_files.specs.Causes.{counted};
ghost use Rattle.eb_files.specs.Files.{is_failed};
ghost use Rattle.eb_files.specs.Written.{is_put_failed};
ghost use Rattle.egencache.specs.System.{IsFirst, ReadsAll, absence_of, error_of, found_of, put_of};

use eb_bytes::{Bytes, Memory};
use eb_files::{Faults, SinkErr, TreeErr};
use std::alloc::Global;
use std::env::Args;
use std::io;
use std::io::{ErrorKind, Read, Write};

/// What an error of this kind means where a file is there.
pub fn tree_error(kind: ErrorKind) -> TreeErr
    ensures { result ≡ error_of kind }
{
    match kind {
        ErrorKind::OutOfMemory => TreeErr::Memory,
        _ => TreeErr::Failed,
    }
}

// What an error of this kind means of a path: that no file is there, or an error.
fn absence<T>(kind: ErrorKind) -> Result<Option<T>, TreeErr>
    ensures { result ≡ absence_of kind }
{
    match kind {
        ErrorKind::NotFound | ErrorKind::NotADirectory => Ok(None),
        _ => Err(tree_error(kind)),
    }
}

/// What a call on a path found; none where no file is there.
pub fn found<T>(answer: io::Result<T>) -> Result<Option<T>, TreeErr>
    ensures { result ≡ found_of answer }
{
    match answer {
        Ok(value) => Ok(Some(value)),
        Err(error) => absence(error.kind()),
    }
}

/// The answer, which is counted where it is a failure.
pub fn count_answer<T>(faults: &mut Faults, answer: Result<T, TreeErr>) -> Result<T, TreeErr>
    ensures same { result ≡ answer }
    ensures faults { faults.new ≡ counted (is_failed answer) faults.old }
{
    if matches!(&answer, Err(TreeErr::Failed)) {
        faults.raise();
    }
    answer
}

/// A file that is open for reading.
pub trait Source {
    /// The bytes that are left to read, where they are known.
    ghost rest: { Self → Option Text };

    /// How many failures came: a call that fails raises it by one, and every other call leaves it.
    ghost faults: { Self → ℕ };

    /// The first bytes of those that are left to read, `most` of them where there are so many.
    ///
    /// # Errors
    /// `Failed` where they could not be read, `Memory` where there is no room for them.
    fn read(&mut self, alloc: Global, most: u64) -> Result<Bytes, TreeErr>
        ensures fits { IfOk result (λ bytes. length bytes < 2 ^ 63) }
        ensures bytes { (left : Text) → rest self.old ≡ Some left → IsFirst result left most }
        ensures cause { faults self.new ≡ counted (is_failed result) (faults self.old) };
}

/// An open file of the system, and how many failures came.
#[derive(Drop)]
pub struct OpenFile<F> {
    pub file: F,
    pub faults: Faults,
}

impl<F: Read> Source for OpenFile<F> {
    ghost rest = { λ s. F.remaining s.file };

    ghost faults = { λ s. s.faults };

    fn read(&mut self, alloc: Global, most: u64) -> Result<Bytes, TreeErr> {
        let answer = read_first(alloc, &mut self.file, most);
        count_answer(&mut self.faults, answer)
    }
}

// The first bytes of those that are left to read, `most` of them where there are so many.
fn read_first<F: Read>(alloc: Global, file: &mut F, most: u64) -> Result<Bytes, TreeErr>
    ensures fits { IfOk result (λ bytes. length bytes < 2 ^ 63) }
    ensures bytes { (left : Text) → F.remaining file.old ≡ Some left → IsFirst result left most }
{
    let mut bytes = Vec::new(alloc);
    match file.take(most).read_to_end(&mut bytes) {
        Ok(_) => Ok(Bytes::from_slice(alloc, &bytes)?),
        Err(error) => Err(tree_error(error.kind())),
    }
}

/// All the bytes that are left to read.
///
/// # Errors
/// `TooLarge` where there are more than `limit`; else as the source answers.
pub fn read_all<S: Source>(alloc: Global, source: &mut S, limit: usize) -> Result<Bytes, TreeErr>
    ensures within { IfOk result (λ bytes. length bytes ≤ limit) }
    ensures bytes { (left : Text) → S.rest source.old ≡ Some left → ReadsAll result left limit }
    ensures cause { S.faults source.new ≡ counted (is_failed result) (S.faults source.old) }
{
    // One byte more shows that there are too many.
    let bytes = source.read(alloc, (limit as u64).saturating_add(1))?;
    if bytes.len() > limit {
        return Err(TreeErr::TooLarge);
    }
    Ok(bytes)
}

/// Writes all the bytes.
///
/// # Errors
/// The writer's, where it does not take them all; it may have taken some then.
pub fn write_out<W: Write>(out: &mut W, bytes: &[u8]) -> io::Result<()>
    ensures { OnOk result (Appends (W.contents out.old) (W.contents out.new) bytes.now) }
{
    out.write_all(bytes)?;
    out.flush()
}

/// What writing to an output gave, which is counted where it is a failure.
///
/// # Errors
/// `Failed` where the writing failed, for whatever reason.
pub fn put_answer(faults: &mut Faults, answer: io::Result<()>) -> Result<(), SinkErr>
    ensures answer { result ≡ put_of answer }
    ensures faults { faults.new ≡ counted (is_put_failed result) faults.old }
{
    match answer {
        Ok(()) => Ok(()),
        Err(_) => {
            faults.raise();
            Err(SinkErr::Failed)
        }
    }
}

// The arguments after the first, which is the program's name.
fn word_list(alloc: Global, mut arguments: Args) -> Result<Vec<Bytes>, Memory>
    ensures { IfOk result (λ words. words.items ≡ map string_bytes (drop 1 (into_iter_items arguments))) }
{
    let _name = arguments.next();
    let mut words = Vec::new(alloc);
    for argument in arguments {
        words.push(Bytes::from_slice(alloc, argument.as_bytes())?)?;
    }
    Ok(words)
}

/// The words after the program's name. There are none where an argument is no text.
///
/// # Errors
/// `Memory` where there is no room for them.
pub fn read_words(alloc: Global, arguments: io::Result<Args>) -> Result<Vec<Bytes>, Memory>
    ensures words { IfOk arguments (λ list. IfOk result (λ words. words.items ≡ map string_bytes (drop 1 (into_iter_items list)))) }
    ensures no_text { IfErr arguments (λ error. error_kind error ≡ ErrorKind.InvalidData → IsOkAnd result (λ words. words.items ≡ [])) }
    ensures memory { IfErr arguments (λ error. error_kind error ≢ ErrorKind.InvalidData → IsErr result) }
{
    match arguments {
        Ok(arguments) => word_list(alloc, arguments),
        Err(error) if error.kind() == ErrorKind::InvalidData => Ok(Vec::new(alloc)),
        Err(_) => Err(Memory),
    }
}
