//! What a server counts.
ghost use Rattle.std.specs.Prelude.{◌≡◌};
ghost use Rattle.roc_node.specs.Counts.{no_counts, one_skip_more, one_ignore_more, with_skip, with_taken};

use crate::Skip;
use roc_msg::Reason;
use roc_wire::WireFault;

/// How many datagrams were skipped, by the word of the fault, or for the tag.
#[derive(Clone, Copy)]
pub struct SkipCounts {
    pub short: u64,
    pub magic: u64,
    pub version: u64,
    pub kind: u64,
    pub count: u64,
    pub order: u64,
    pub rest: u64,
    pub tag: u64,
}

/// How many messages were ignored, by the reason.
#[derive(Clone, Copy)]
pub struct IgnoreCounts {
    pub foreign: u64,
    pub bad_proc: u64,
    pub bad_group: u64,
    pub bad_inputs: u64,
    pub not_here: u64,
    pub late: u64,
    pub differs: u64,
    pub stale: u64,
    pub unfit: u64,
}

/// How many datagrams were taken and skipped. A message that was ignored was taken.
#[derive(Clone, Copy)]
pub struct Counts {
    pub taken: u64,
    pub skipped: u64,
    pub skips: SkipCounts,
    pub ignores: IgnoreCounts,
}

impl Counts {
    /// Nothing was taken or skipped.
    pub fn new() -> Counts
        ensures { result ≡ no_counts }
    {
        Counts {
            taken: 0,
            skipped: 0,
            skips: SkipCounts {
                short: 0,
                magic: 0,
                version: 0,
                kind: 0,
                count: 0,
                order: 0,
                rest: 0,
                tag: 0,
            },
            ignores: IgnoreCounts {
                foreign: 0,
                bad_proc: 0,
                bad_group: 0,
                bad_inputs: 0,
                not_here: 0,
                late: 0,
                differs: 0,
                stale: 0,
                unfit: 0,
            },
        }
    }

    /// One more was skipped.
    pub fn skip(&mut self, skip: Skip)
        ensures { self.new ≡ with_skip self.old skip }
    {
        self.skipped = self.skipped.saturating_add(1);
        self.skips.add(skip);
    }

    /// One more was taken.
    pub fn take(&mut self)
        ensures { self.new ≡ with_taken self.old }
    {
        self.taken = self.taken.saturating_add(1);
    }
}

impl SkipCounts {
    fn add(&mut self, skip: Skip)
        ensures { self.new ≡ one_skip_more self.old skip }
    {
        match skip {
            Skip::Fault(WireFault::Short) => self.short = self.short.saturating_add(1),
            Skip::Fault(WireFault::Magic) => self.magic = self.magic.saturating_add(1),
            Skip::Fault(WireFault::Version) => self.version = self.version.saturating_add(1),
            Skip::Fault(WireFault::Kind) => self.kind = self.kind.saturating_add(1),
            Skip::Fault(WireFault::Count) => self.count = self.count.saturating_add(1),
            Skip::Fault(WireFault::Order) => self.order = self.order.saturating_add(1),
            Skip::Fault(WireFault::Rest) => self.rest = self.rest.saturating_add(1),
            Skip::Fault(WireFault::NoMemory) => {}
            Skip::Tag => self.tag = self.tag.saturating_add(1),
        }
    }
}

impl IgnoreCounts {
    /// One more was ignored for this reason.
    pub fn add(&mut self, reason: Reason)
        ensures { self.new ≡ one_ignore_more self.old reason }
    {
        match reason {
            Reason::Foreign => self.foreign = self.foreign.saturating_add(1),
            Reason::BadProc => self.bad_proc = self.bad_proc.saturating_add(1),
            Reason::BadGroup => self.bad_group = self.bad_group.saturating_add(1),
            Reason::BadInputs => self.bad_inputs = self.bad_inputs.saturating_add(1),
            Reason::NotHere => self.not_here = self.not_here.saturating_add(1),
            Reason::Late => self.late = self.late.saturating_add(1),
            Reason::Differs => self.differs = self.differs.saturating_add(1),
            Reason::Stale => self.stale = self.stale.saturating_add(1),
            Reason::Unfit => self.unfit = self.unfit.saturating_add(1),
        }
    }
}
