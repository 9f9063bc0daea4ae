//! Disks over files, and the shelf of a folder. Their bytes aren't told: this is the trusted edge.
ghost use Rattle.std.specs.Prelude.{◌≡◌, [], IfOk};
ghost use Rattle.mq_disk.specs.Files.{file_name_of};

use crate::counted::fault;
use crate::{Disk, Shelf, Side, TakeFault};
use mq_base::{Failed, QName};
use std::alloc::{AllocError, Global};
use std::fs::{File, OpenOptions};
use std::io;
use std::os::unix::fs::FileExt;

/// A disk over one file.
#[derive(Drop)]
pub struct FileDisk {
    file: File,
    // The length that was measured when the file was opened or last restarted, and kept from then on.
    len: u64,
    faults: u64,
}

/// The disks of the current folder. The file of a manager's side has the manager's name with each `/` written `&`, and
/// then `.a.qlog` or `.b.qlog`. It is made where it isn't there.
#[derive(Drop)]
pub struct FileShelf<'a> {
    rt: &'a HostRuntime,
    faults: u64,
}

// The name of the file of a manager's side.
fn file_name(alloc: Global, name: &QName, side: Side) -> Result<Vec<u8>, AllocError>
    ensures { IfOk result (λ v. v.items ≡ file_name_of name.now side) }
{
    let mut text = Vec::new(alloc);
    for byte in name.text() {
        text.push(if *byte == b'/' { b'&' } else { *byte })?;
    }
    match side {
        Side::A => text.extend_from_slice(b".a.qlog")?,
        Side::B => text.extend_from_slice(b".b.qlog")?,
    }
    Ok(text)
}

// Opens or makes a file, and puts its name on the disk too.
fn open_or_make(rt: &HostRuntime, path: &str) -> io::Result<FileDisk>
    ensures { IfOk result (λ d. d.faults ≡ 0) }
{
    let file = OpenOptions::new()
        .read(true)
        .write(true)
        .create(true)
        .open(rt, path)?;
    File::open(rt, ".")?.sync_all()?;
    let len = file.metadata()?.len();
    Ok(FileDisk {
        file,
        len,
        faults: 0,
    })
}

fn settle(file: &File) -> io::Result<u64> {
    file.sync_all()?;
    Ok(file.metadata()?.len())
}

impl Disk for FileDisk {
    ghost tells = { ⊥ };

    ghost size = { λ f. f.len };

    ghost seen = { λ f. [] };

    ghost may_leave = { λ f c. ⊥ };

    ghost faults = { λ f. f.faults };

    ghost size_is = { λ f t. absurd t };

    ghost present = { λ f t. absurd t };

    fn len(&mut self) -> Result<u64, Failed> {
        Ok(self.len)
    }

    fn read_at(&mut self, place: u64, buf: &mut [u8]) -> Result<(), Failed> {
        match self.file.read_exact_at(buf, place) {
            Ok(()) => Ok(()),
            Err(_) => Err(fault(&mut self.faults)),
        }
    }

    fn write_at(&mut self, place: u64, bytes: &[u8]) -> Result<(), Failed> {
        let Some(end) = place.checked_add(bytes.len() as u64) else {
            return Err(fault(&mut self.faults));
        };
        match self.file.write_all_at(bytes, place) {
            Ok(()) => {
                self.len = self.len.max(end);
                Ok(())
            }
            Err(_) => Err(fault(&mut self.faults)),
        }
    }

    fn cut(&mut self, len: u64) -> Result<(), Failed> {
        match self.file.set_len(len) {
            Ok(()) => {
                self.len = len;
                Ok(())
            }
            Err(_) => Err(fault(&mut self.faults)),
        }
    }

    fn sync(&mut self) -> Result<(), Failed> {
        match self.file.sync_all() {
            Ok(()) => Ok(()),
            Err(_) => Err(fault(&mut self.faults)),
        }
    }

    fn restart(&mut self) -> Result<(), Failed> {
        match settle(&self.file) {
            Ok(len) => {
                self.len = len;
                Ok(())
            }
            Err(_) => Err(fault(&mut self.faults)),
        }
    }
}

impl<'a> FileShelf<'a> {
    /// The shelf of the current folder. No fault is counted yet.
    pub fn new(rt: &'a HostRuntime) -> Self
        ensures { result.faults ≡ 0 }
    {
        FileShelf { rt, faults: 0 }
    }
}

impl Shelf for FileShelf<'_> {
    type D = FileDisk;

    ghost holds = { λ s n side b. ⊥ };

    ghost faults = { λ s. s.faults };

    fn take(&mut self, name: &QName, side: Side) -> Result<FileDisk, TakeFault> {
        let Ok(path) = file_name(self.rt.alloc(), name, side) else {
            return Err(TakeFault::NoMemory);
        };
        let Ok(path) = str::from_utf8(&path) else {
            fault(&mut self.faults);
            return Err(TakeFault::Failed);
        };
        match open_or_make(self.rt, path) {
            Ok(disk) => Ok(disk),
            Err(_) => {
                fault(&mut self.faults);
                Err(TakeFault::Failed)
            }
        }
    }
}
