//! How a run ends.

/// How a run ends. The code that the process ends with is beside each.
#[derive(Clone, Copy, Debug, PartialEq, Eq)]
pub enum Status {
    /// The whole report was written: 0.
    Done,
    /// The words fit no command: 2.
    Usage,
    /// An input is refused: 3.
    Refused,
    /// A file isn't there: 4.
    Absent,
    /// A file couldn't be read: 5.
    ReadFault,
    /// A file is longer than 16,777,216 bytes: 6.
    TooLong,
    /// The report couldn't be written: 7.
    WriteFault,
    /// There was no memory: 8.
    Memory,
}

/// Which file of a command a fault line speaks of.
#[derive(Clone, Copy, Debug, PartialEq, Eq)]
pub enum FileKind {
    /// The lens.
    Zmx,
    /// The glass catalogue.
    Agf,
    /// The job.
    Job,
    /// The tolerance box.
    Tol,
    /// The certificate.
    Cert,
    /// The script of edits.
    Script,
}
