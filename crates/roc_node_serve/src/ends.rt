//! How the loop of a server ends.

/// How serving ends.
#[derive(Clone, Copy, Debug, PartialEq, Eq)]
pub enum ServeEnd {
    /// A stop came, or all turns were taken, and all lines are written.
    Done,
    /// The bind or a receive failed.
    LinkFault,
    /// A write failed.
    SinkFault,
    /// No memory.
    NoMemory,
    /// The file that was named is no journal of the shard, and this is the place.
    Journal(u64),
    /// The journal would be too long.
    Full,
    /// The disk failed.
    Disk,
    /// The book failed.
    BookFault,
}
