ghost use Rattle.std.specs.Prelude.{◌≡◌};
ghost use Rattle.egencache.specs.ExitStatus.{exit_status};

/// How the program ended; its number is the exit status.
#[derive(Clone, Copy)]
pub enum Status {
    /// 0: the entry was put.
    Done,
    /// 1: the ebuild has no entry, and the line that says why was put.
    SomeFailed,
    /// 2: the arguments are invalid.
    Usage,
    /// 3: the repository has no such ebuild.
    RepoBad,
    /// 4: a file could not be read.
    FileFault,
    /// 5: the output could not be written.
    ReportFault,
    /// 6: memory ran out.
    Memory,
}

impl Status {
    /// The exit status, 0 to 6.
    pub fn code(self) -> u8
        ensures { result ≡ exit_status self }
    {
        self as u8
    }
}
