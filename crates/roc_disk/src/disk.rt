// Where a program keeps what has to outlive it.
ghost use Rattle.std.specs.Prelude.{◌≡◌, ◌≤◌, ◌+◌, ℕ, Bool, true, List, Option, Some, length, take, drop};
ghost use Rattle.roc_io.specs.Cause.{HasCause};
ghost use Rattle.roc_disk.specs.Answers.{disk_failed, len_failed, OnDone, IsLength, put};
ghost use Rattle.roc_disk.specs.Stops.{Torn, Cut, Follows, NoMore, Only, Elapses};

/// What a call of a disk answers that gives nothing but this.
#[derive(Clone, Copy, Debug, PartialEq, Eq)]
pub enum DiskDone {
    /// It was done.
    Ok,
    /// It was not, or no one knows how far. The count of failures rose, or stands at its end.
    Failed,
}

/// What a disk answers when it is asked for a length.
#[derive(Clone, Copy, Debug, PartialEq, Eq)]
pub enum DiskLen {
    /// So many bytes.
    Len(u64),
    /// It could not be told. The count of failures rose, or stands at its end.
    Failed,
}

/// Files by name, of which one is open. Places and lengths are counts of bytes.
///
/// A clause behind `tells self.new` says nothing of a disk that tells nothing, and one that names the open file says
/// nothing where none is open.
pub trait Disk {
    /// How many calls have failed.
    ghost faults: { Self → ℕ };

    /// Whether the disk tells what its files hold and what a stop may leave.
    ghost tells: { Self → Bool };

    /// The name of the file that is open.
    ghost file: { Self → Option (List ℕ) };

    /// What a read of a name gives, in whole. A name that is not there holds nothing.
    ghost content: { Self → List ℕ → List ℕ };

    /// What a stop at this moment may leave under a name.
    ghost may_leave: { Self → List ℕ → List ℕ → Type 0 };

    /// The moment, as a number that does not fall.
    ghost moment: { Self → ℕ };

    /// What a stop at some moment from that one on might have left under a name, inside a call or between two.
    ghost left_since: { Self → List ℕ → ℕ → List ℕ → Type 0 };

    /// Opens the file of a name in the place of the one that was open, and makes an empty one where there is none.
    /// At Failed no one knows which file is open.
    fn open(&mut self, name: &str) -> DiskDone
        ensures cause { HasCause (disk_failed result) (faults self.old) (faults self.new) }
        ensures told { tells self.new ≡ true → tells self.old ≡ true }
        ensures opened { tells self.new ≡ true → OnDone result (file self.new ≡ Some name.now) }
        ensures content { tells self.new ≡ true → (other : List ℕ) → content self.new other ≡ content self.old other }
        ensures stop { tells self.new ≡ true → (other : List ℕ) → NoMore (may_leave self.old other) (may_leave self.new other) }
        ensures time { tells self.new ≡ true → (other : List ℕ)
            → Elapses (moment self.old) (moment self.new) (left_since self.old other) (left_since self.new other) (may_leave self.new other) };

    /// How long the open file is.
    fn len(&mut self) -> DiskLen
        ensures cause { HasCause (len_failed result) (faults self.old) (faults self.new) }
        ensures told { tells self.new ≡ true → tells self.old ≡ true }
        ensures len { tells self.new ≡ true → (name : List ℕ) → file self.old ≡ Some name → IsLength result (content self.old name) }
        ensures file { tells self.new ≡ true → file self.new ≡ file self.old }
        ensures content { tells self.new ≡ true → (other : List ℕ) → content self.new other ≡ content self.old other }
        ensures stop { tells self.new ≡ true → (other : List ℕ) → NoMore (may_leave self.old other) (may_leave self.new other) }
        ensures time { tells self.new ≡ true → (other : List ℕ)
            → Elapses (moment self.old) (moment self.new) (left_since self.old other) (left_since self.new other) (may_leave self.new other) };

    /// Fills a buffer with the bytes of the open file from this place on. At Failed the buffer may hold anything.
    fn read(&mut self, at: u64, into: &mut [u8]) -> DiskDone
        requires { tells self.old ≡ true → (name : List ℕ) → file self.old ≡ Some name → at + length into.old ≤ length (content self.old name) }
        ensures cause { HasCause (disk_failed result) (faults self.old) (faults self.new) }
        ensures told { tells self.new ≡ true → tells self.old ≡ true }
        ensures same_length { length into.new ≡ length into.old }
        ensures read { tells self.new ≡ true → (name : List ℕ) → file self.old ≡ Some name
            → OnDone result (into.new ≡ take (length into.old) (drop at (content self.old name))) }
        ensures file { tells self.new ≡ true → file self.new ≡ file self.old }
        ensures content { tells self.new ≡ true → (other : List ℕ) → content self.new other ≡ content self.old other }
        ensures stop { tells self.new ≡ true → (other : List ℕ) → NoMore (may_leave self.old other) (may_leave self.new other) }
        ensures time { tells self.new ≡ true → (other : List ℕ)
            → Elapses (moment self.old) (moment self.new) (left_since self.old other) (left_since self.new other) (may_leave self.new other) };

    /// Writes over what stands from this place on, and past the end. Until a sync a stop may leave any bytes in the range.
    /// What a read gives of the range after Failed is one of these; what a write past the end makes of the gap is not told.
    fn write_at(&mut self, at: u64, bytes: &[u8]) -> DiskDone
        ensures cause { HasCause (disk_failed result) (faults self.old) (faults self.new) }
        ensures told { tells self.new ≡ true → tells self.old ≡ true }
        ensures written { tells self.new ≡ true → (name : List ℕ) → file self.old ≡ Some name → at ≤ length (content self.old name)
            → OnDone result (content self.new name ≡ put (content self.old name) at bytes.now) }
        ensures stop { tells self.new ≡ true → (name : List ℕ) → file self.old ≡ Some name
            → Follows (Torn at (length bytes.now)) (may_leave self.old name) (may_leave self.new name) }
        ensures file { tells self.new ≡ true → file self.new ≡ file self.old }
        ensures others { tells self.new ≡ true → (other : List ℕ) → ¬ (file self.old ≡ Some other)
            → (content self.new other ≡ content self.old other) × NoMore (may_leave self.old other) (may_leave self.new other) }
        ensures time { tells self.new ≡ true → (other : List ℕ)
            → Elapses (moment self.old) (moment self.new) (left_since self.old other) (left_since self.new other) (may_leave self.new other) };

    /// Cuts the open file to a length. Until a sync a stop may leave any length between. A longer one is not told.
    fn cut(&mut self, len: u64) -> DiskDone
        ensures cause { HasCause (disk_failed result) (faults self.old) (faults self.new) }
        ensures told { tells self.new ≡ true → tells self.old ≡ true }
        ensures cut { tells self.new ≡ true → (name : List ℕ) → file self.old ≡ Some name → len ≤ length (content self.old name)
            → OnDone result (content self.new name ≡ take len (content self.old name)) }
        ensures stop { tells self.new ≡ true → (name : List ℕ) → file self.old ≡ Some name
            → Follows (Cut len) (may_leave self.old name) (may_leave self.new name) }
        ensures file { tells self.new ≡ true → file self.new ≡ file self.old }
        ensures others { tells self.new ≡ true → (other : List ℕ) → ¬ (file self.old ≡ Some other)
            → (content self.new other ≡ content self.old other) × NoMore (may_leave self.old other) (may_leave self.new other) }
        ensures time { tells self.new ≡ true → (other : List ℕ)
            → Elapses (moment self.old) (moment self.new) (left_since self.old other) (left_since self.new other) (may_leave self.new other) };

    /// After Ok a stop leaves of the open file what a read gives.
    fn sync(&mut self) -> DiskDone
        ensures cause { HasCause (disk_failed result) (faults self.old) (faults self.new) }
        ensures told { tells self.new ≡ true → tells self.old ≡ true }
        ensures durable { tells self.new ≡ true → (name : List ℕ) → file self.old ≡ Some name → OnDone result (Only (content self.old name) (may_leave self.new name)) }
        ensures file { tells self.new ≡ true → file self.new ≡ file self.old }
        ensures content { tells self.new ≡ true → (other : List ℕ) → content self.new other ≡ content self.old other }
        ensures stop { tells self.new ≡ true → (other : List ℕ) → NoMore (may_leave self.old other) (may_leave self.new other) }
        ensures time { tells self.new ≡ true → (other : List ℕ)
            → Elapses (moment self.old) (moment self.new) (left_since self.old other) (left_since self.new other) (may_leave self.new other) };

    /// The count of failures.
    fn faults(&self) -> u64
        ensures { result ≡ faults self.now };

    /// What may be left now might have been left since any moment before.
    ghost counts_now: { (disk : Self) (name : List ℕ) (t : ℕ) (image : List ℕ) → tells disk ≡ true → t ≤ moment disk → may_leave disk name image → left_since disk name t image };

    /// Since this moment nothing else might have been left.
    ghost only_now: { (disk : Self) (name image : List ℕ) → tells disk ≡ true → left_since disk name (moment disk) image → may_leave disk name image };

    /// What a read gives is one of the images that a stop may leave.
    ghost reads_stay: { (disk : Self) (name : List ℕ) → tells disk ≡ true → may_leave disk name (content disk name) };
}
