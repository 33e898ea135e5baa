//! The machine's disk.
ghost use Rattle.std.specs.Prelude.{false, [], None};
ghost use Rattle.roc_io.specs.Cause.{HasCause};
ghost use Rattle.roc_disk.specs.Answers.{disk_failed};

use libc::{POSIX_FADV_DONTNEED, posix_fadvise};
use roc_disk::{Disk, DiskDone, DiskLen};
use std::fs::{File, OpenOptions};
use std::os::fd::AsRawFd;
use std::os::unix::fs::FileExt;
use std::path::Path;
use std::rt::Files;
use std::{fs, io};

/// The files that a runtime reaches, by their paths, of which one is open and locked, so that no other open of this kind gets it. A call
/// that fails is counted, and so is each but an open while no file is open: before the first, and after an open or a sync that failed.
///
/// It tells nothing, so that each clause of the trait behind `tells` holds of it without saying anything: what the system keeps of a file
/// that was synced, and what a stop leaves of one that was not, is believed.
#[derive(Drop)]
pub struct RealDisk<'a, R> {
    runtime: &'a R,
    file: Option<File>,
    faults: u64,
}

impl<'a, R> RealDisk<'a, R> {
    /// The files of this runtime, none of which is open.
    pub fn new(runtime: &'a R) -> Self {
        RealDisk {
            runtime,
            file: None,
            faults: 0,
        }
    }

    fn counted(&mut self, is_done: bool) -> DiskDone
        ensures { HasCause (disk_failed result) self.old.faults self.new.faults }
    {
        if is_done {
            return DiskDone::Ok;
        }
        self.faults = self.faults.saturating_add(1);
        DiskDone::Failed
    }
}

impl<R: Files<File = File>> Disk for RealDisk<'_, R> {
    ghost faults = { λ d. d.faults };

    ghost tells = { λ d. false };

    ghost file = { λ d. None };

    ghost content = { λ d name. [] };

    ghost may_leave = { λ d name image. Unit {0} };

    ghost moment = { λ d. 0 };

    ghost left_since = { λ d name t image. Unit {0} };

    ghost counts_now = { λ d name t image told le now. now };

    ghost only_now = { λ d name image told left. left };

    ghost reads_stay = { λ d name told. tt };

    fn open(&mut self, name: &str) -> DiskDone {
        // The lock of the file that was open goes first, which may be of this name.
        self.file = None;
        self.file = opened(self.runtime, name).ok();
        let is_done = self.file.is_some();
        self.counted(is_done)
    }

    fn len(&mut self) -> DiskLen {
        match length_of(&self.file) {
            Some(len) => DiskLen::Len(len),
            None => {
                self.faults = self.faults.saturating_add(1);
                DiskLen::Failed
            }
        }
    }

    fn read(&mut self, at: u64, into: &mut [u8]) -> DiskDone {
        let is_done = match &self.file {
            Some(file) => file.read_exact_at(into, at).is_ok(),
            None => false,
        };
        self.counted(is_done)
    }

    fn write_at(&mut self, at: u64, bytes: &[u8]) -> DiskDone {
        let is_done = match &self.file {
            Some(file) => file.write_all_at(bytes, at).is_ok(),
            None => false,
        };
        self.counted(is_done)
    }

    fn cut(&mut self, len: u64) -> DiskDone {
        let is_done = match &self.file {
            Some(file) => file.set_len(len).is_ok(),
            None => false,
        };
        self.counted(is_done)
    }

    fn sync(&mut self) -> DiskDone {
        let is_done = match &self.file {
            Some(file) => file.sync_data().is_ok(),
            None => false,
        };
        if !is_done {
            // What the system still has of the file need not be on the device, and it would answer the next sync Ok.
            self.file = None;
        }
        self.counted(is_done)
    }

    fn faults(&self) -> u64 {
        self.faults
    }
}

// The file of a name, which is made where it is missing, with its name on the device and its bytes as they are there.
fn opened<R: Files<File = File>>(runtime: &R, name: &str) -> io::Result<File> {
    let file = OpenOptions::new()
        .read(true)
        .write(true)
        .create(true)
        .open(runtime, name)?;
    file.try_lock()?;
    file.sync_all()?;
    forget_copies(&file)?;
    fs::open(runtime, folder_of(name))?.sync_all()?;
    Ok(file)
}

// What an earlier process failed to sync may stand in the system's copies of a file and not on the device.
fn forget_copies(file: &File) -> io::Result<()> {
    match posix_fadvise(file.as_raw_fd(), 0, 0, POSIX_FADV_DONTNEED) {
        0 => Ok(()),
        fault => Err(io::Error::from_raw_os_error(fault)),
    }
}

fn folder_of(name: &str) -> Path<'_> {
    match Path::new(name).parent() {
        Some(folder) if !folder.as_os_str().is_empty() => folder,
        _ => Path::new("."),
    }
}

fn length_of(file: &Option<File>) -> Option<u64> {
    let file = file.as_ref()?;
    Some(file.metadata().ok()?.len())
}
