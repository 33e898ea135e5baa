// The files of a disk in memory, with each version that they had.
ghost use Rattle.std.specs.Prelude.{◌≡◌, ◌≤◌, ◌+◌, ◌⊎◌, ℕ, true, false, List, [], Some, length, take, drop, IfOk, IfSome, option_map};
ghost use Rattle.roc_disk.specs.Answers.{disk_failed, OnDone, put};
ghost use Rattle.roc_disk.specs.Stops.{Torn, Cut, Follows, NoMore, Only, Elapses};
ghost use Rattle.roc_disk_memory.specs.Versions.{held, seen_in, stable_in, MayLeave, LeftSince};
ghost use Rattle.roc_disk_memory.specs.Inner.Added.{Added, AddsMade};

use crate::bytes::{Tear, copied, shortened, torn, torn_cut, written_over};
use roc_disk::DiskDone;
use std::alloc::{AllocError, Global};

/// What a file held at some time: what a read gave, and what is left of it where all that was not synced is torn.
#[derive(Drop)]
pub(crate) struct Version {
    name: Vec<u8>,
    seen: Vec<u8>,
    stable: Vec<u8>,
}

#[derive(Drop)]
pub(crate) struct Store {
    alloc: Global,
    versions: Vec<Version>,
    file: Vec<u8>,
    told: bool,
}

// The newest version of a name.
fn find<'a>(versions: &'a [Version], name: &[u8]) -> Option<&'a Version>
    ensures { option_map (λ version. version.now) result ≡ held versions.now name.now }
{
    for version in versions {
        if version.name.as_slice() == name {
            return Some(version);
        }
    }
    None
}

// What a read of a name gives, and what is left of it where all is torn.
fn latest<'a>(versions: &'a [Version], name: &[u8]) -> (&'a [u8], &'a [u8])
    ensures seen { result.0.now ≡ seen_in versions.now name.now }
    ensures stable { result.1.now ≡ stable_in versions.now name.now }
{
    match find(versions, name) {
        Some(version) => (version.seen.as_slice(), version.stable.as_slice()),
        None => {
            let none: &[u8] = &[];
            (none, none)
        }
    }
}

fn add(
    alloc: Global,
    versions: &mut Vec<Version>,
    name: &[u8],
    seen: Vec<u8>,
    stable: Vec<u8>,
) -> bool
    ensures { result ≡ true → Added versions.old.items versions.new.items name.now seen.items stable.items }
{
    match copied(alloc, name) {
        Err(_) => false,
        Ok(name) => versions.insert(0, Version { name, seen, stable }).is_ok(),
    }
}

fn seen_written(
    alloc: Global,
    seen: &[u8],
    at: usize,
    bytes: &[u8],
    fails: bool,
) -> Result<Vec<u8>, AllocError>
    requires { at ≤ length seen.now }
    ensures put { fails ≡ false → IfOk result (λ new. new.items ≡ put seen.now at bytes.now) }
    ensures torn { IfOk result (λ new. Torn at (length bytes.now) seen.now new.items) }
{
    if fails {
        torn(alloc, seen, at, bytes, Tear::Nothing)
    } else {
        written_over(alloc, seen, at, bytes)
    }
}

fn seen_cut(alloc: Global, seen: &[u8], len: usize, fails: bool) -> Result<Vec<u8>, AllocError>
    ensures cut { fails ≡ false → IfOk result (λ new. new.items ≡ take len seen.now) }
    ensures torn { IfOk result (λ new. Cut len seen.now new.items) }
{
    if fails {
        torn_cut(alloc, seen, len, Tear::Nothing)
    } else {
        shortened(alloc, seen, len)
    }
}

// What a write makes of the two.
fn written(
    alloc: Global,
    seen: &[u8],
    stable: &[u8],
    at: u64,
    bytes: &[u8],
    tear: Tear,
    fails: bool,
) -> Option<(Vec<u8>, Vec<u8>)>
    ensures put { fails ≡ false → IfSome result (λ made. made.0.items ≡ put seen.now at bytes.now) }
    ensures seen { IfSome result (λ made. Torn at (length bytes.now) seen.now made.0.items) }
    ensures stable { IfSome result (λ made. Torn at (length bytes.now) stable.now made.1.items) }
{
    let at = at as usize;
    if at > seen.len() {
        return None;
    }
    let Ok(new_seen) = seen_written(alloc, seen, at, bytes, fails) else {
        return None;
    };
    let Ok(new_stable) = torn(alloc, stable, at, bytes, tear) else {
        return None;
    };
    Some((new_seen, new_stable))
}

// What a cut makes of the two.
fn cut_short(
    alloc: Global,
    seen: &[u8],
    stable: &[u8],
    len: u64,
    tear: Tear,
    fails: bool,
) -> Option<(Vec<u8>, Vec<u8>)>
    ensures cut { fails ≡ false → IfSome result (λ made. made.0.items ≡ take len seen.now) }
    ensures seen { IfSome result (λ made. Cut len seen.now made.0.items) }
    ensures stable { IfSome result (λ made. Cut len stable.now made.1.items) }
{
    let len = len as usize;
    let Ok(new_seen) = seen_cut(alloc, seen, len, fails) else {
        return None;
    };
    let Ok(new_stable) = torn_cut(alloc, stable, len, tear) else {
        return None;
    };
    Some((new_seen, new_stable))
}

// What a sync makes of the two.
fn synced(alloc: Global, seen: &[u8], stable: &[u8], fails: bool) -> Option<(Vec<u8>, Vec<u8>)>
    ensures seen { IfSome result (λ made. made.0.items ≡ seen.now) }
    ensures stable { IfSome result (λ made. (made.1.items ≡ seen.now) ⊎ (made.1.items ≡ stable.now)) }
    ensures synced { fails ≡ false → IfSome result (λ made. made.1.items ≡ seen.now) }
{
    let Ok(new_seen) = copied(alloc, seen) else {
        return None;
    };
    let new_stable = if fails { stable } else { seen };
    let Ok(new_stable) = copied(alloc, new_stable) else {
        return None;
    };
    Some((new_seen, new_stable))
}

fn read_from(seen: &[u8], at: usize, into: &mut [u8])
    ensures same_length { length into.new ≡ length into.old }
    ensures read { at + length into.old ≤ length seen.now → into.new ≡ take (length into.old) (drop at seen.now) }
{
    if at <= seen.len() && into.len() <= seen.len() - at {
        into.copy_from_slice(&seen[at..at + into.len()]);
    }
}

fn answer(fails: bool) -> DiskDone
    ensures { disk_failed result ≡ fails }
{
    if fails {
        DiskDone::Failed
    } else {
        DiskDone::Ok
    }
}

impl Store {
    pub(crate) fn new(alloc: Global) -> Self
        ensures told { result.told ≡ true }
        ensures empty { result.versions.items ≡ [] }
    {
        Store {
            alloc,
            versions: Vec::new(alloc),
            file: Vec::new(alloc),
            told: true,
        }
    }

    // What a read of the open file gives, and what is left of it where all is torn.
    pub(crate) fn files(&self) -> (&[u8], &[u8])
        ensures seen { result.0.now ≡ seen_in self.now.versions.items self.now.file.items }
        ensures stable { result.1.now ≡ stable_in self.now.versions.items self.now.file.items }
    {
        latest(&self.versions, &self.file)
    }

    pub(crate) fn is_told(&self) -> bool
        ensures { result ≡ self.now.told }
    {
        self.told
    }

    pub(crate) fn len(&self) -> u64
        ensures { (name : List ℕ) → Some self.now.file.items ≡ Some name → result ≡ length (seen_in self.now.versions.items name) }
    {
        self.files().0.len() as u64
    }

    // Copies what a read of the open file gives from this place on; nothing where that is past the end.
    pub(crate) fn read(&self, at: u64, into: &mut [u8])
        ensures same_length { length into.new ≡ length into.old }
        ensures read { (name : List ℕ) → Some self.now.file.items ≡ Some name → at + length into.old ≤ length (seen_in self.now.versions.items name)
            → into.new ≡ take (length into.old) (drop at (seen_in self.now.versions.items name)) }
    {
        let (seen, _) = self.files();
        read_from(seen, at as usize, into);
    }

    // Adds the version that was made of the open file. Where none was, the disk tells no more.
    fn push(&mut self, made: Option<(Vec<u8>, Vec<u8>)>)
        ensures told { self.new.told ≡ true → self.old.told ≡ true }
        ensures same_file { self.new.file.items ≡ self.old.file.items }
        ensures added { self.new.told ≡ true → AddsMade made self.old.versions.items self.new.versions.items self.old.file.items }
    {
        match made {
            None => self.told = false,
            Some((seen, stable)) => {
                if !add(self.alloc, &mut self.versions, &self.file, seen, stable) {
                    self.told = false;
                }
            }
        }
    }

    pub(crate) fn open(&mut self, name: &str, fails: bool) -> DiskDone
        ensures due { disk_failed result ≡ fails }
        ensures told { self.new.told ≡ true → self.old.told ≡ true }
        ensures opened { self.new.told ≡ true → OnDone result (Some self.new.file.items ≡ Some name.now) }
        ensures same { self.new.versions.items ≡ self.old.versions.items }
    {
        if fails {
            return DiskDone::Failed;
        }
        match copied(self.alloc, name.as_bytes()) {
            Ok(name) => self.file = name,
            Err(_) => self.told = false,
        }
        DiskDone::Ok
    }

    pub(crate) fn write_at(&mut self, at: u64, bytes: &[u8], tear: Tear, fails: bool) -> DiskDone
        ensures due { disk_failed result ≡ fails }
        ensures told { self.new.told ≡ true → self.old.told ≡ true }
        ensures file { self.new.told ≡ true → Some self.new.file.items ≡ Some self.old.file.items }
        ensures written { self.new.told ≡ true → (name : List ℕ) → Some self.old.file.items ≡ Some name → at ≤ length (seen_in self.old.versions.items name)
            → OnDone result (seen_in self.new.versions.items name ≡ put (seen_in self.old.versions.items name) at bytes.now) }
        ensures stop { self.new.told ≡ true → (name : List ℕ) → Some self.old.file.items ≡ Some name
            → Follows (Torn at (length bytes.now)) (MayLeave self.old.versions.items name) (MayLeave self.new.versions.items name) }
        ensures others { self.new.told ≡ true → (other : List ℕ) → ¬ (Some self.old.file.items ≡ Some other)
            → (seen_in self.new.versions.items other ≡ seen_in self.old.versions.items other) × NoMore (MayLeave self.old.versions.items other) (MayLeave self.new.versions.items other) }
        ensures time { self.new.told ≡ true → (other : List ℕ)
            → Elapses (length self.old.versions.items) (length self.new.versions.items)
            (LeftSince self.old.versions.items other) (LeftSince self.new.versions.items other) (MayLeave self.new.versions.items other) }
    {
        let (seen, stable) = self.files();
        let made = written(self.alloc, seen, stable, at, bytes, tear, fails);
        self.push(made);
        answer(fails)
    }

    pub(crate) fn cut(&mut self, len: u64, tear: Tear, fails: bool) -> DiskDone
        ensures due { disk_failed result ≡ fails }
        ensures told { self.new.told ≡ true → self.old.told ≡ true }
        ensures file { self.new.told ≡ true → Some self.new.file.items ≡ Some self.old.file.items }
        ensures cut { self.new.told ≡ true → (name : List ℕ) → Some self.old.file.items ≡ Some name → len ≤ length (seen_in self.old.versions.items name)
            → OnDone result (seen_in self.new.versions.items name ≡ take len (seen_in self.old.versions.items name)) }
        ensures stop { self.new.told ≡ true → (name : List ℕ) → Some self.old.file.items ≡ Some name
            → Follows (Cut len) (MayLeave self.old.versions.items name) (MayLeave self.new.versions.items name) }
        ensures others { self.new.told ≡ true → (other : List ℕ) → ¬ (Some self.old.file.items ≡ Some other)
            → (seen_in self.new.versions.items other ≡ seen_in self.old.versions.items other) × NoMore (MayLeave self.old.versions.items other) (MayLeave self.new.versions.items other) }
        ensures time { self.new.told ≡ true → (other : List ℕ)
            → Elapses (length self.old.versions.items) (length self.new.versions.items)
            (LeftSince self.old.versions.items other) (LeftSince self.new.versions.items other) (MayLeave self.new.versions.items other) }
    {
        let (seen, stable) = self.files();
        let made = cut_short(self.alloc, seen, stable, len, tear, fails);
        self.push(made);
        answer(fails)
    }

    pub(crate) fn sync(&mut self, fails: bool) -> DiskDone
        ensures due { disk_failed result ≡ fails }
        ensures told { self.new.told ≡ true → self.old.told ≡ true }
        ensures file { self.new.told ≡ true → Some self.new.file.items ≡ Some self.old.file.items }
        ensures durable { self.new.told ≡ true → (name : List ℕ) → Some self.old.file.items ≡ Some name
            → OnDone result (Only (seen_in self.old.versions.items name) (MayLeave self.new.versions.items name)) }
        ensures content { self.new.told ≡ true → (other : List ℕ) → seen_in self.new.versions.items other ≡ seen_in self.old.versions.items other }
        ensures stop { self.new.told ≡ true → (other : List ℕ) → NoMore (MayLeave self.old.versions.items other) (MayLeave self.new.versions.items other) }
        ensures time { self.new.told ≡ true → (other : List ℕ)
            → Elapses (length self.old.versions.items) (length self.new.versions.items)
            (LeftSince self.old.versions.items other) (LeftSince self.new.versions.items other) (MayLeave self.new.versions.items other) }
    {
        let (seen, stable) = self.files();
        let made = synced(self.alloc, seen, stable, fails);
        self.push(made);
        answer(fails)
    }
}
