//! Where the system's files are opened.

ghost use Rattle.std.specs.Prelude.{◌≡◌, ℕ, List, Option, None, Result, IfOk, IfErr, IsUtf8};
ghost use Rattle.std.specs.IoError.{error_kind};
ghost use Rattle.std.specs.declared.io.Error.{Error};
ghost use Rattle.lensio.specs.Held.{Files, Lacks, Opens};

use std::io::{ErrorKind, Read};
use std::rt::Files;
use std::{fs, io};

/// A place where files are opened for reading, by their paths: all that a shelf may ask of the system.
///
/// A disk need not tell what it holds, nor how it may answer.
pub trait Disk {
    /// A file that is open for reading.
    type File: Read + Drop;

    /// What is held by each path, where it is told.
    ghost held: { Self → Option Files };

    /// How the disk may answer where it is asked for a path.
    ghost may_answer: { Self → List ℕ → Result Self.File Error → Type 0 };

    /// Opens the file of a path.
    fn open(&self, path: &str) -> io::Result<Self::File>
        ensures answer { may_answer self.now path.now result }

        // Where it is told what is held, all bytes of the file are left to read, and a path that the
        // system doesn't find isn't held.
        ensures opens { IfOk result
            (λ file. Opens (held self.now) path.now (Self.File.remaining file)) }
        ensures lacks { IfErr result
            (λ error. error_kind error ≡ ErrorKind.NotFound → Lacks (held self.now) path.now) };

    /// Only names that are text are held.
    ghost text_alone: { (disk : Self) (name : List ℕ) → (IsUtf8 name → ⊥)
        → Lacks (held disk) name };
}

/// The files of the system. It tells nothing: that a path's bytes are those on the disk is trusted.
#[derive(Drop)]
pub struct SystemDisk<'a, R: Files> {
    files: &'a R,
}

impl<'a, R: Files> SystemDisk<'a, R> {
    /// The files of a runtime.
    pub fn new(files: &'a R) -> Self {
        SystemDisk { files }
    }
}

impl<R: Files> Disk for SystemDisk<'_, R> {
    type File = R::File;

    ghost held = { λ _. None };

    ghost may_answer = { λ _ _ _. Unit {0} };

    ghost text_alone = { λ _ _ _. tt };

    fn open(&self, path: &str) -> io::Result<R::File> {
        fs::open(self.files, path)
    }
}
