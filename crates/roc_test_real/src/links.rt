//! Two links on the loopback.
use crate::same::same;
use roc_io::{Addr, Arrival, Bound, Link, Sent};
use roc_io_real::RealLink;
use std::process::Abort;
use std::test::Fail;
use std::time::{Clock, Duration, Instant};

const ANY: Addr = Addr {
    host: [0, 0, 0, 0],
    port: 0,
};

/// An address that is kept for documents, and no machine's.
const NOBODY: Addr = Addr {
    host: [192, 0, 2, 1],
    port: 0,
};

/// How many bytes of a datagram are kept.
const KEPT: usize = 60_001;

/// One byte more than a datagram of the Internet protocol, version 4, can carry.
const TOO_LONG: usize = 65_508;

/// How many receives there are at most before one is quiet.
const MOST_RECEIVES: u32 = 10_000_000;

/// The longest datagram that a message has here.
const LARGE: usize = 49_184;

/// Binds to the first port that nobody has, so that another run beside this one takes another.
fn bound_to_free<L: Link>(rt: &impl Abort, link: &mut L) -> Addr {
    for port in 21_000..22_000 {
        let addr = Addr {
            host: [127, 0, 0, 1],
            port,
        };
        if link.bind(addr) == Bound::Ok {
            return addr;
        }
    }
    panic!(rt; "no port")
}

/// Receives until a datagram comes: a receive may be quiet before it.
fn sender<L: Link>(rt: &impl Abort, link: &mut L, bytes: &mut Vec<u8>) -> Addr {
    for _ in 0..100 {
        match link.receive(bytes) {
            Arrival::Datagram { from } => return from,
            Arrival::Quiet => {}
            _ => panic!(rt; "no datagram"),
        }
    }
    panic!(rt; "quiet")
}

/// The next datagram has these bytes. Who sent it is handed out.
fn brings<L: Link>(rt: &impl Abort, link: &mut L, bytes: &mut Vec<u8>, wanted: &[u8]) -> Addr {
    let from = sender(rt, link, bytes);
    assert!(rt; bytes.as_slice() == wanted);
    from
}

fn sends<L: Link>(rt: &impl Abort, link: &mut L, to: Addr, bytes: &[u8]) {
    same(rt, "a send", &link.send(to, bytes), &Sent::Ok);
}

fn receives<L: Link>(rt: &impl Abort, link: &mut L, bytes: &mut Vec<u8>, wanted: Arrival) {
    same(rt, "a receive", &link.receive(bytes), &wanted);
}

fn binds<L: Link>(rt: &impl Abort, link: &mut L, addr: Addr, wanted: Bound) {
    same(rt, "a bind", &link.bind(addr), &wanted);
}

/// How many binds and receives failed, and how many sends.
fn counts<L: Link>(rt: &impl Abort, link: &L, faults: u64, lost: u64) {
    same(rt, "the faults", &link.faults(), &faults);
    same(rt, "the lost", &link.lost(), &lost);
}

/// Datagrams go from `far` to `near`. Who sent them is handed out.
fn go_there<L: Link>(
    rt: &impl Abort,
    near: &mut L,
    far: &mut L,
    here: Addr,
    large: &[u8],
    bytes: &mut Vec<u8>,
) -> Addr {
    sends(rt, far, here, b"a");
    sends(rt, far, here, large);
    sends(rt, far, here, b"behind");
    brings(rt, near, bytes, b"a");
    let from = brings(rt, near, bytes, large);
    brings(rt, near, bytes, b"behind");
    from
}

fn are_quiet<L: Link>(rt: &impl Abort, near: &mut L, far: &mut L, bytes: &mut Vec<u8>) {
    receives(rt, near, bytes, Arrival::Quiet);
    receives(rt, far, bytes, Arrival::Quiet);
    same(rt, "the bytes", &bytes.len(), &0);
    counts(rt, far, 0, 0);
    same(rt, "the lost", &near.lost(), &0);
}

fn go_there_and_back<L: Link>(
    rt: &impl Abort,
    near: &mut L,
    far: &mut L,
    large: &[u8],
    bytes: &mut Vec<u8>,
) {
    let here = bound_to_free(rt, near);
    binds(rt, far, ANY, Bound::Ok);
    let from = go_there(rt, near, far, here, large, bytes);
    sends(rt, near, from, b"back");
    let back = brings(rt, far, bytes, b"back");
    same(rt, "who sent it", &back, &here);
    are_quiet(rt, near, far, bytes);
}

#[test]
fn datagrams_go_there_and_back(rt: HostRuntime) -> Result<(), Fail> {
    let alloc = rt.alloc();
    let large: Vec<u8> = vec![in alloc; 7u8; LARGE]?;
    let mut near = RealLink::new(alloc, &rt);
    let mut far = RealLink::new(alloc, &rt);
    go_there_and_back(&rt, &mut near, &mut far, &large, &mut Vec::new(alloc));
    Ok(())
}

fn is_cut_or_refused<L: Link>(
    rt: &impl Abort,
    near: &mut L,
    far: &mut L,
    long: &mut Vec<u8>,
    bytes: &mut Vec<u8>,
) {
    let here = bound_to_free(rt, near);
    binds(rt, far, ANY, Bound::Ok);
    same(rt, "a long send", &far.send(here, long), &Sent::Failed);
    same(rt, "the lost", &far.lost(), &1);
    long.truncate(KEPT + 5);
    sends(rt, far, here, long);
    long.truncate(KEPT);
    brings(rt, near, bytes, long);
    counts(rt, far, 0, 1);
}

#[test]
fn what_is_too_long_is_cut_or_refused(rt: HostRuntime) -> Result<(), Fail> {
    let alloc = rt.alloc();
    let mut long: Vec<u8> = vec![in alloc; 7u8; TOO_LONG]?;
    let mut near = RealLink::new(alloc, &rt);
    let mut far = RealLink::new(alloc, &rt);
    is_cut_or_refused(&rt, &mut near, &mut far, &mut long, &mut Vec::new(alloc));
    Ok(())
}

fn fail_to_bind<L: Link>(rt: &impl Abort, near: &mut L, far: &mut L) {
    let here = bound_to_free(rt, near);
    binds(rt, far, here, Bound::Failed);
    binds(rt, far, NOBODY, Bound::Failed);
    same(rt, "the faults", &far.faults(), &2);
}

#[test]
fn a_bind_may_fail(rt: HostRuntime) {
    let alloc = rt.alloc();
    fail_to_bind(
        &rt,
        &mut RealLink::new(alloc, &rt),
        &mut RealLink::new(alloc, &rt),
    );
}

fn fails_unbound<L: Link>(rt: &impl Abort, link: &mut L, bytes: &mut Vec<u8>) {
    receives(rt, link, bytes, Arrival::Failed);
    same(rt, "the faults", &link.faults(), &1);
    same(rt, "a send", &link.send(NOBODY, b"a"), &Sent::Failed);
    counts(rt, link, 1, 1);
}

#[test]
fn calls_before_a_bind_fail(rt: HostRuntime) {
    let alloc = rt.alloc();
    fails_unbound(&rt, &mut RealLink::new(alloc, &rt), &mut Vec::new(alloc));
}

/// Whether so many milliseconds passed since then, where the clock tells.
fn has_passed<C: Clock>(clock: &C, since: Instant, wait: u64) -> Option<bool> {
    match since.elapsed(clock) {
        Ok(passed) => Some(passed >= Duration::from_millis(wait)),
        Err(_) => None,
    }
}

/// Sends the link a datagram before each receive until one is quiet: one that begins 640 milliseconds behind the bind has to be.
fn send_until_quiet<C: Clock + Abort, L: Link>(
    rt: &C,
    link: &mut L,
    here: Addr,
    bytes: &mut Vec<u8>,
    since: Instant,
) {
    for _ in 0..MOST_RECEIVES {
        sends(rt, link, here, b"a");
        let is_over = has_passed(rt, since, 640);
        match link.receive(bytes) {
            Arrival::Datagram { .. } => same(rt, "too late", &is_over, &Some(false)),
            Arrival::Quiet => return,
            _ => panic!(rt; "no datagram"),
        }
    }
    panic!(rt; "never quiet")
}

fn is_quiet_in_time<C: Clock + Abort, L: Link>(
    rt: &C,
    link: &mut L,
    bytes: &mut Vec<u8>,
) -> Result<(), Fail> {
    let before = Instant::now(rt)?;
    let here = bound_to_free(rt, link);
    let since = Instant::now(rt)?;
    send_until_quiet(rt, link, here, bytes, since);
    same(rt, "a wait", &has_passed(rt, before, 100), &Some(true));
    same(rt, "who sent it", &sender(rt, link, bytes), &here);
    same(rt, "the faults", &link.faults(), &0);
    Ok(())
}

#[test]
fn a_receive_is_quiet_though_datagrams_come(rt: HostRuntime) -> Result<(), Fail> {
    let alloc = rt.alloc();
    is_quiet_in_time(&rt, &mut RealLink::new(alloc, &rt), &mut Vec::new(alloc))
}

/// Receives silence, so many milliseconds of it at least, or less where the last one was 640 milliseconds ago. When it began is handed out.
fn silence<C: Clock + Abort, L: Link>(
    rt: &C,
    link: &mut L,
    bytes: &mut Vec<u8>,
    last: Instant,
    wait: u64,
) -> Result<Instant, Fail> {
    let begun = Instant::now(rt)?;
    receives(rt, link, bytes, Arrival::Quiet);
    let is_long = has_passed(rt, begun, wait) == Some(true);
    assert!(rt; is_long || has_passed(rt, last, 640) == Some(true));
    Ok(begun)
}

/// A wait that is wanted, and whether a datagram is sent behind it.
const WAITS: [(u64, bool); 5] = [
    (20, false),
    (20, true),
    (20, true),
    (40, false),
    (80, false),
];

fn goes_to_itself<L: Link>(rt: &impl Abort, link: &mut L, here: Addr, bytes: &mut Vec<u8>) {
    sends(rt, link, here, b"a");
    same(rt, "who sent it", &sender(rt, link, bytes), &here);
}

fn waits_longer<C: Clock + Abort, L: Link>(
    rt: &C,
    link: &mut L,
    bytes: &mut Vec<u8>,
) -> Result<(), Fail> {
    let mut last = Instant::now(rt)?;
    let here = bound_to_free(rt, link);
    for (wait, is_sent) in WAITS {
        last = silence(rt, link, bytes, last, wait)?;
        if is_sent {
            goes_to_itself(rt, link, here, bytes);
        }
    }
    Ok(())
}

#[test]
fn a_wait_grows_where_datagrams_came(rt: HostRuntime) -> Result<(), Fail> {
    let alloc = rt.alloc();
    waits_longer(&rt, &mut RealLink::new(alloc, &rt), &mut Vec::new(alloc))
}
