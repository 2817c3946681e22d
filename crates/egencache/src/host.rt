ghost use Rattle.std.specs.Prelude.{◌≡◌};

use crate::system::{OpenFile, count_answer, found, put_answer, read_all, write_out};
use eb_bytes::Bytes;
use eb_files::{Faults, Path, Sink, SinkErr, Tree, TreeErr};
use std::alloc::Global;
use std::rt::Files;
use std::{fs, io, str};

/// The system's files. Their contents are not known, and a failure may always come.
///
/// What is no regular file is no file: nothing at the path, a directory, a pipe or a device, and a path that goes
/// through something that is no directory. Links are followed.
#[derive(Drop)]
pub struct HostTree<R> {
    rt: R,
    faults: Faults,
}

impl<R: Files> HostTree<R> {
    /// The files that this runtime reaches, no fault so far.
    pub fn new(rt: R) -> HostTree<R>
        ensures { ⟦<HostTree<R> as Tree>⟧.faults result ≡ 0 }
    {
        HostTree {
            rt,
            faults: Faults::new(),
        }
    }
}

impl<R: Files> Tree for HostTree<R> {
    ghost use Rattle.std.specs.Prelude.{None, true};

    ghost files = { λ t. None };

    ghost faults = { λ t. t.faults };

    ghost may_fail = { λ t. true };

    fn read(&mut self, alloc: Global, path: &Path, limit: usize) -> Result<Option<Bytes>, TreeErr> {
        let opened = open_file(&self.rt, path);
        let Some(file) = count_answer(&mut self.faults, opened)? else {
            return Ok(None);
        };
        let mut source = OpenFile {
            file,
            faults: self.faults,
        };
        let answer = read_all(alloc, &mut source, limit);
        self.faults = source.faults;
        Ok(Some(answer?))
    }
}

/// Standard output. What was put is not known, and a failure may always come.
#[derive(Drop)]
pub struct HostSink<R> {
    rt: R,
    faults: Faults,
}

impl<R: Print> HostSink<R> {
    /// The standard output that this runtime reaches, no fault so far.
    pub fn new(rt: R) -> HostSink<R>
        ensures { ⟦<HostSink<R> as Sink>⟧.faults result ≡ 0 }
    {
        HostSink {
            rt,
            faults: Faults::new(),
        }
    }
}

impl<R: Print> Sink for HostSink<R> {
    ghost use Rattle.std.specs.Prelude.{None, true};

    ghost written = { λ s. None };

    ghost faults = { λ s. s.faults };

    ghost may_fail = { λ s. true };

    fn put(&mut self, bytes: &[u8]) -> Result<(), SinkErr> {
        let answer = write_out(&mut io::writer(&self.rt), bytes);
        put_answer(&mut self.faults, answer)
    }
}

// The regular file at the path, open; none where there is none. It is opened only where it is one, since opening a pipe
// waits for a writer. The system takes a path that is UTF-8 only.
fn open_file<R: Files>(rt: &R, path: &Path) -> Result<Option<R::File>, TreeErr> {
    let Ok(path) = str::from_utf8(path.as_slice()) else {
        return Err(TreeErr::Failed);
    };
    match found(fs::metadata(rt, path))? {
        Some(metadata) if metadata.is_file() => found(fs::open(rt, path)),
        _ => Ok(None),
    }
}
