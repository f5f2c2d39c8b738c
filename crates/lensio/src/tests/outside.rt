//! The system's files and output, and readers and writers that the system interrupts.

ghost use Rattle.std.specs.Prelude.{None};

use crate::disk::{Disk, SystemDisk};
use crate::output::Output;
use crate::shelf::Failed;
use crate::standard::{StdShelf, StdSink, TRIES};
use crate::tests::TEXT;
use crate::transfer::{SlurpFault, put, slurp};
use std::fmt::Display;
use std::fs::File;
use std::io::{Error, ErrorKind, Print, Read, Write};
use std::test::Fail;
use std::{env, fs, io};

#[test]
fn files_of_the_system(rt: HostRuntime) -> Result<(), Fail> {
    let alloc = rt.alloc();
    let folder = env::temp_dir(&rt)?;
    let file = folder.join(alloc, "lensio-file")?;
    fs::write(&rt, file.as_path(), TEXT)?;
    let mut shelf = StdShelf::new(SystemDisk::new(&rt));
    for (name, held) in [
        (file.as_str().as_bytes(), Ok(TEXT)),
        (folder.as_str().as_bytes(), Err(SlurpFault::Fault)),
        (b"lensio-none", Err(SlurpFault::Absent)),
        (b"", Err(SlurpFault::Absent)),
        (b"\xFF\xFE", Err(SlurpFault::Absent)),
        (b"a\0b", Err(SlurpFault::Fault)),
        (file.as_str().as_bytes(), Ok(TEXT)),
    ] {
        match (slurp(alloc, &mut shelf, name), held) {
            (Ok(bytes), Ok(held)) => assert_eq!(rt; bytes.as_slice(), held),
            (Err(found), Err(fault)) => assert_eq!(rt; found, fault, "the name {name:?}"),
            _ => panic!(rt; "the name {name:?}"),
        }
    }
    fs::remove_file(&rt, file.as_path())?;
    Ok(())
}

// Prints to a file.
#[derive(Drop)]
struct Device(File);

impl Print for Device {
    fn print<D: Display + Drop>(&self, value: D) -> io::Result<()> {
        write!(&mut &self.0, "{value}")
    }

    fn println<D: Display + Drop>(&self, value: D) -> io::Result<()> {
        writeln!(&mut &self.0, "{value}")
    }

    fn write_all(&self, bytes: &[u8]) -> io::Result<()> {
        (&self.0).write_all(bytes)
    }

    fn write_some(&self, bytes: &[u8]) -> io::Result<usize> {
        (&self.0).write(bytes)
    }
}

#[test]
fn output_of_the_system(rt: HostRuntime) -> Result<(), Fail> {
    let file = env::temp_dir(&rt)?.join(rt.alloc(), "lensio-output")?;
    let device = Device(File::create(&rt, file.as_path())?);
    assert_eq!(rt; put(&mut StdSink::new(io::writer(&device)), TEXT), Ok(()));
    assert_eq!(rt; fs::read(&rt, file.as_path())?.as_slice(), TEXT);
    fs::remove_file(&rt, file.as_path())?;
    assert_eq!(rt;
        put(
            &mut StdSink::new(io::writer(&rt)),
            b"to the standard output\n"
        ),
        Ok(())
    );
    Ok(())
}

#[test]
fn a_full_device_is_a_fault(rt: HostRuntime) -> Result<(), Fail> {
    let device = Device(File::create(&rt, "/dev/full")?);
    assert_eq!(rt;
        put(&mut StdSink::new(io::writer(&device)), TEXT),
        Err(Failed)
    );
    Ok(())
}

// Bytes of which each read or write but the last is interrupted.
#[derive(Drop)]
struct Interrupted {
    left: u32,
}

impl Interrupted {
    fn interrupts(&mut self) -> bool {
        let interrupts = self.left > 0;
        self.left = self.left.saturating_sub(1);
        interrupts
    }
}

impl Read for Interrupted {
    fn read(&mut self, to: &mut [u8]) -> io::Result<usize> {
        if self.interrupts() {
            return Err(Error::from(ErrorKind::Interrupted));
        }
        to.fill(0);
        Ok(0)
    }
}

impl Write for Interrupted {
    fn write(&mut self, piece: &[u8]) -> io::Result<usize> {
        if self.interrupts() {
            return Err(Error::from(ErrorKind::Interrupted));
        }
        Ok(piece.len())
    }

    fn flush(&mut self) -> io::Result<()> {
        Ok(())
    }
}

impl Output for Interrupted {
    ghost steady = { λ _ _ told. told };
}

// A disk whose file is interrupted so often, or that refuses every path by an error.
#[derive(Drop)]
struct Troubled {
    interruptions: u32,
    refusal: Option<ErrorKind>,
}

impl Disk for Troubled {
    type File = Interrupted;

    ghost held = { λ _. None };

    ghost may_answer = { λ _ _ _. Unit {0} };

    ghost text_alone = { λ _ _ _. tt };

    fn open(&self, _path: &str) -> io::Result<Interrupted> {
        match self.refusal {
            Some(kind) => Err(Error::from(kind)),
            None => Ok(Interrupted {
                left: self.interruptions,
            }),
        }
    }
}

#[test]
fn an_interruption_is_tried_again(rt: HostRuntime) -> Result<(), Fail> {
    for (interruptions, fault) in [
        (0, None),
        (1, None),
        (TRIES - 1, None),
        (TRIES, Some(SlurpFault::Fault)),
    ] {
        let mut shelf = StdShelf::new(Troubled {
            interruptions,
            refusal: None,
        });
        let slurped = slurp(rt.alloc(), &mut shelf, b"file");
        assert_eq!(rt;
            slurped.err(),
            fault,
            "{interruptions} interruptions of a read"
        );
        let mut sink = StdSink::new(Interrupted {
            left: interruptions,
        });
        let wrote = put(&mut sink, TEXT);
        assert_eq!(rt;
            wrote.is_err(),
            fault.is_some(),
            "{interruptions} interruptions of a write"
        );
    }
    Ok(())
}

#[test]
fn a_path_that_is_not_found_is_an_absence(rt: HostRuntime) -> Result<(), Fail> {
    for (kind, fault) in [
        (ErrorKind::NotFound, SlurpFault::Absent),
        (ErrorKind::PermissionDenied, SlurpFault::Fault),
        (ErrorKind::NotADirectory, SlurpFault::Fault),
        (ErrorKind::OutOfMemory, SlurpFault::Fault),
        (ErrorKind::Interrupted, SlurpFault::Fault),
    ] {
        let mut shelf = StdShelf::new(Troubled {
            interruptions: 0,
            refusal: Some(kind),
        });
        let slurped = slurp(rt.alloc(), &mut shelf, b"file");
        assert_eq!(rt; slurped.err(), Some(fault), "{kind:?}");
    }
    Ok(())
}
