//! The files of the system.
ghost use Rattle.std.specs.Prelude.{None};

use crate::opens::{OpenFault, Opens};
use std::fs::{File, OpenFile};
use std::io::{ErrorKind, IsTerminal};

/// The files of the system.
#[derive(Clone, Copy)]
pub struct Disk<'a> {
    pub rt: &'a HostRuntime,
}

// Why the system did not open a file.
fn fault_of(kind: ErrorKind) -> OpenFault {
    match kind {
        ErrorKind::NotFound => OpenFault::Missing,
        ErrorKind::PermissionDenied => OpenFault::Denied,
        _ => OpenFault::Other,
    }
}

// Whether an open file is a directory, which the system opens and does not read.
fn is_directory(file: &File) -> bool {
    match file.metadata() {
        Ok(metadata) => metadata.is_dir(),
        Err(_) => false,
    }
}

impl Opens for Disk<'_> {
    type Opened = File;

    ghost held = { λ disk name. None };

    fn open(&self, name: &str) -> Result<File, OpenFault> {
        match File::open(self.rt, name) {
            Err(error) => Err(fault_of(error.kind())),
            Ok(file) if is_directory(&file) => Err(OpenFault::Directory),
            Ok(file) => Ok(file),
        }
    }

    fn is_typed(&self) -> bool {
        self.rt.stdin().is_terminal()
    }
}
