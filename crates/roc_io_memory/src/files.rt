// Files in memory.
ghost use Rattle.std.specs.Prelude.{◌≡◌, ◌<◌, List, [], Some, false, IfSome, unwrap_or, option_map, is_none};
ghost use Rattle.roc_io_memory.specs.Calls.{calls_failing, next_fails, called};
ghost use Rattle.roc_io.specs.Cause.{HasCause};
ghost use Rattle.roc_io.specs.Observed.{AddsIf};
ghost use Rattle.roc_io.specs.Files.{read_failed, Reads, Fills};
ghost use Rattle.roc_io_memory.specs.Files.{held};

pub mod name;

use crate::calls::Calls;
use crate::kept::Kept;
use name::FileName;
use roc_io::{Files, Read};
use std::alloc::Global;
use std::marker::Model;

/// A file in memory: a name and the bytes that it holds.
#[derive(Drop)]
pub struct StoredFile {
    name: String,
    bytes: Vec<u8>,
}

impl Model for StoredFile {
    ghost use Rattle.std.specs.Prelude.{string_bytes};
    ghost use Rattle.roc_io_memory.specs.Files.{NamedBytes};

    ghost Value = { NamedBytes };

    ghost view = { λ f. record { name = string_bytes f.name; bytes = f.bytes.items } };
}

impl StoredFile {
    ghost use Rattle.std.specs.Prelude.{string_bytes};

    /// A file of this name and these bytes.
    pub fn new(name: String, bytes: Vec<u8>) -> Self
        ensures { result ≡ record { name = string_bytes name; bytes = bytes.items } }
    {
        StoredFile { name, bytes }
    }

    /// The name.
    pub fn name(&self) -> &str
        ensures { result.now ≡ self.now.name }
    {
        self.name.as_str()
    }

    /// The bytes that it holds.
    pub fn bytes(&self) -> &[u8]
        ensures { result.now ≡ self.now.bytes }
    {
        &self.bytes
    }
}

// What the first file of this name holds.
fn find<'a>(files: &'a [StoredFile], name: &str) -> Option<&'a [u8]>
    ensures { option_map (λ bytes. bytes.now) result ≡ held files.now name.now }
{
    for file in files {
        if file.name() == name {
            return Some(file.bytes());
        }
    }
    None
}

// Copies bytes that are at most `limit` many; the buffer comes empty.
fn copy_within(bytes: &[u8], into: &mut Vec<u8>, limit: usize) -> Read
    requires { into.old.items ≡ [] }
    ensures no_failure { read_failed result ≡ false }
    ensures fills { Fills result limit into.new.items }
    ensures told { Reads result bytes.now limit into.new.items }
{
    if bytes.len() > limit {
        return Read::TooLong;
    }
    match into.extend_from_slice(bytes) {
        Ok(()) => Read::Ok,
        Err(_) => Read::NoMemory,
    }
}

/// Files in memory that fail at the reads that they were told to fail at.
///
/// A read of a name that is not there fails too, and is counted. Once there is no memory for a name whose read
/// failed, they tell no such names any more; what they answer does not change by that.
#[derive(Drop)]
pub struct MemFiles {
    alloc: Global,
    files: Vec<StoredFile>,
    failed: Kept<FileName>,
    calls: Calls,
}

impl Model for MemFiles {
    ghost use Rattle.roc_io_memory.specs.Files.{FilesState};

    ghost Value = { FilesState };

    ghost view = { λ f. record { files = f.files.items; failed = f.failed; calls = f.calls } };
}

impl MemFiles {
    /// These files; of two with one name the first counts. The reads with the numbers in `failing` are to
    /// fail; the first read is number 1.
    pub fn new(alloc: Global, files: Vec<StoredFile>, failing: Vec<u64>) -> Self
        ensures { result ≡ record { files = files.items; failed = Some []; calls = calls_failing failing.items } }
    {
        MemFiles {
            alloc,
            files,
            failed: Kept::new(alloc),
            calls: Calls::new(failing),
        }
    }

    /// The names whose reads failed, one for each failure, where they are told.
    pub fn failed_names(&self) -> Option<&[FileName]>
        ensures { option_map (λ names. names.now) result ≡ self.now.failed }
    {
        self.failed.items()
    }
}

impl Files for MemFiles {
    ghost faults = { λ f. f.calls.faults };

    ghost failed_names = { λ f. f.failed };

    ghost content = { λ f name. held f.files name };

    fn read(&mut self, name: &str, into: &mut Vec<u8>, limit: usize) -> Read
        ensures cause { HasCause (read_failed result) self.old.calls.faults self.new.calls.faults }
        ensures failed { AddsIf (read_failed result) self.old.failed self.new.failed name.now }
        ensures fills { Fills result limit into.new.items }
        ensures told { IfSome (held self.old.files name.now) (λ bytes. Reads result bytes limit into.new.items) }
        ensures files { self.new.files ≡ self.old.files }
        ensures due { let missing = is_none (held self.old.files name.now) in read_failed result ≡ next_fails missing self.old.calls }
        ensures calls { let missing = is_none (held self.old.files name.now) in self.new.calls ≡ called missing self.old.calls }
    {
        into.clear();
        let found = find(&self.files, name);
        let fails = self.calls.next_fails(found.is_none());
        match found {
            Some(bytes) if !fails => copy_within(bytes, into, limit),
            _ => {
                self.failed.push_made(FileName::copied(self.alloc, name));
                Read::Failed
            }
        }
    }

    fn faults(&self) -> u64 {
        self.calls.faults()
    }
}

/// Files in memory that never fail. A name that is not there holds no bytes.
#[derive(Drop)]
pub struct CalmFiles {
    files: Vec<StoredFile>,
}

impl Model for CalmFiles {
    ghost use Rattle.std.specs.Prelude.{List};
    ghost use Rattle.roc_io_memory.specs.Files.{NamedBytes};

    ghost Value = { List NamedBytes };

    ghost view = { λ f. f.files.items };
}

impl CalmFiles {
    /// These files; of two with one name the first counts.
    pub fn new(files: Vec<StoredFile>) -> Self
        ensures { result ≡ files.items }
    {
        CalmFiles { files }
    }
}

impl Files for CalmFiles {
    ghost faults = { λ _. 0 };

    ghost failed_names = { λ _. Some [] };

    ghost content = { λ f name. Some (unwrap_or (held f name) []) };

    fn read(&mut self, name: &str, into: &mut Vec<u8>, limit: usize) -> Read
        ensures fills { Fills result limit into.new.items }
        ensures told { Reads result (unwrap_or (held self.old name.now) []) limit into.new.items }
        ensures files { self.new ≡ self.old }
        ensures never_fails { read_failed result ≡ false }
    {
        into.clear();
        copy_within(find(&self.files, name).unwrap_or(&[]), into, limit)
    }

    fn faults(&self) -> u64 {
        0
    }
}
