//! The files and the datagrams of the tests, and what is written.
use roc_io::Addr;

/// One counter on one shard.
pub(crate) const COUNTER: &[u8] = b"shards 1;
table t { x }
proc add(n) { later a at 0 { get v = t[0].x; set t[0].x = v + n; out v; } }
";

pub(crate) const SCHEDULE: &[u8] = b"submit 0 add 5
deliver 1
deliver 2
deliver 3
deliver 4
";

pub(crate) const REPORT: &[u8] = b"submit 0.0 add 5
send 1 start 0.0 c0 s0
deliver 1
send 2 startok 0.0 s0 c0
deliver 2
send 3 commit 0.0 c0 s0
deliver 3
send 4 commitok 0.0 s0 c0
deliver 4
answer 0.0 0
order 0.0
row t[0,0].x 5
end 1 answered 0 pending 4 messages
";

/// The first two events, and half of the third.
pub(crate) const TWO_EVENTS_AND_A_HALF: &[u8] = b"submit 0.0 add 5
send 1 start 0.0 c0 s0
deliver 1
send 2 startok 0.0 s0 c0
deliver 2
send 3 ";

pub(crate) const CHECKED: &[u8] = b"shards 1
proc add
piece a deferrable
group 0 deferrable a
conflict add.a add.a
accepted
";

pub(crate) const TRANSFER: &[u8] = b"shards 2;
table acct { bal }
proc pay(f,t,n) {
  later take at f { get b = acct[0].bal; set acct[0].bal = b - n; out b; }
  later give at t { get d = acct[0].bal; set acct[0].bal = d + n; out d; }
}
";

pub(crate) const FIRST_SHARD: Addr = Addr {
    host: [10, 0, 0, 1],
    port: 7000,
};

pub(crate) const SECOND_SHARD: Addr = Addr {
    host: [10, 0, 0, 2],
    port: 7001,
};

/// Where the coordinator is.
pub(crate) const CALLER: Addr = Addr {
    host: [10, 0, 0, 8],
    port: 9000,
};

pub(crate) const ONE_SHARD: &[u8] = b"[[shard]]
number = 0
host = \"10.0.0.1\"
port = 7000
";

pub(crate) const TWO_SHARDS: &[u8] = b"[[shard]]
number = 0
host = \"10.0.0.1\"
port = 7000

[[shard]]
number = 1
host = \"10.0.0.2\"
port = 7001
";

/// The files that there are.
pub(crate) static FILES: [(&str, &[u8]); 10] = [
    ("add.rcw", COUNTER),
    ("add.rcs", SCHEDULE),
    ("add.toml", ONE_SHARD),
    ("none.requests", b""),
    ("pay.rcw", TRANSFER),
    ("pay.toml", TWO_SHARDS),
    ("pay.requests", b"pay 0 1 10\n"),
    ("s.log", SERVER_LOG),
    ("c.log", COORDINATOR_LOG),
    ("forged.log", FORGED_LOG),
];

/// Coordinator 0 starts 0.0 of the counter with the argument 5, under the tag of the counter's text: magic, version, kind, tag, role and
/// number of the sender, and the body.
pub(crate) const START: &[u8] =
    b"RCO1\x02\x010\x1d\xeep\x94\xf1U\x07\x01\0\0\0\0\0\0\0\0\0\0\0\0\0\x01\0\0\0\0\0\0\0\x05\0\0";

/// The same under another tag.
pub(crate) const STRANGE_START: &[u8] =
    b"RCO1\x02\x01othertag\x01\0\0\0\0\0\0\0\0\0\0\0\0\0\x01\0\0\0\0\0\0\0\x05\0\0";

/// What the server answers to it.
pub(crate) const STARTOK: &[u8] =
    b"RCO1\x02\x020\x1d\xeep\x94\xf1U\x07\0\0\0\0\0\0\0\0\0\0\0\0\0\0\0\0\0\0\0\0";

/// A stop.
pub(crate) const STOP: &[u8] = b"RCO1\x02\x070\x1d\xeep\x94\xf1U\x07\x01\0\0";

pub(crate) const STOP_OF_TRANSFERS: &[u8] = b"RCO1\x02\x07[\xbf\0\xa1\x84?\xd2]\x01\0\0";

/// The commit of 0.0, and what the server answers: the value from before.
pub(crate) const COMMIT: &[u8] = b"RCO1\x02\x030\x1d\xeep\x94\xf1U\x07\x01\0\0\0\0\0\0\0\0\0\0\0\0";

pub(crate) const COMMITOK: &[u8] =
    b"RCO1\x02\x040\x1d\xeep\x94\xf1U\x07\0\0\0\0\0\0\0\0\0\0\0\x01\0\0\0\0\0\0\0\0";

/// What the server of the counter logs of one addition.
pub(crate) const SERVER_LOG: &[u8] = b"node s0
in 52434f310201301dee7094f1550701000000000000000000000000000100000000000000050000
out 52434f310202301dee7094f155070000000000000000000000000000000000000000
in 52434f310203301dee7094f1550701000000000000000000000000
out 52434f310204301dee7094f155070000000000000000000000010000000000000000
";

/// What the coordinator logs of it.
pub(crate) const COORDINATOR_LOG: &[u8] = b"node c0
submit add 5
out 52434f310201301dee7094f1550701000000000000000000000000000100000000000000050000
in 52434f310202301dee7094f155070000000000000000000000000000000000000000
out 52434f310203301dee7094f1550701000000000000000000000000
in 52434f310204301dee7094f155070000000000000000000000010000000000000000
answer 0.0 0
";

/// The same with another answer.
pub(crate) const FORGED_LOG: &[u8] = b"node c0
submit add 5
out 52434f310201301dee7094f1550701000000000000000000000000000100000000000000050000
in 52434f310202301dee7094f155070000000000000000000000000000000000000000
out 52434f310203301dee7094f1550701000000000000000000000000
in 52434f310204301dee7094f155070000000000000000000000010000000000000000
answer 0.0 1
";

/// What a server logs that is started and stopped.
pub(crate) const LOG_OF_A_START: &[u8] = b"node s0
in 52434f310201301dee7094f1550701000000000000000000000000000100000000000000050000
out 52434f310202301dee7094f155070000000000000000000000000000000000000000
in 52434f310207301dee7094f15507010000
";

/// The first line, and half of the event of a start.
pub(crate) const HALF_A_START: &[u8] = b"node s0
in 52434f310201301dee7094f155070100000000000000000000000000010000000000000005";

/// Half of what `check` writes.
pub(crate) const HALF_OF_CHECKED: &[u8] = b"shards 1
proc add
piece a deferrable
group 0";
