//! Children in memory, with starts and waits that fail.
ghost use Rattle.std.specs.Prelude.{◌≢◌};

use crate::same::{same, same_items};
use roc_io::{AllStarted, Child, ChildWait, Spawner, start_all};
use roc_io_memory::{CalmLink, CalmSpawner, ChildStart, MemSpawner, wait_all};
use std::alloc::Global;
use std::process::Abort;

fn command(rt: &impl Abort, alloc: Global, word: &str) -> Vec<String> {
    let word = String::from_str(alloc, word).expect(rt, "memory");
    vec![in alloc; word].expect(rt, "memory")
}

fn two_commands(rt: &impl Abort, alloc: Global) -> Vec<Vec<String>> {
    vec![in alloc; command(rt, alloc, "one"), command(rt, alloc, "two")].expect(rt, "memory")
}

// Over a spawner that never fails, the cause of a failure is excluded.
fn start_all_calmly(
    spawner: &mut CalmSpawner,
    commands: &[Vec<String>],
    children: &mut Vec<Child>,
) -> AllStarted
    ensures { result ≢ AllStarted.Failed }
{
    start_all(spawner, commands, children)
}

fn is_two(rt: &impl Abort, start: &ChildStart) {
    let word = start.words().first().expect(rt, "words");
    same(rt, "the child", &start.child().number(), &1);
    same_items(rt, "the word", word.as_str().as_bytes(), b"two".as_slice());
}

fn keeps_words(
    rt: &impl Abort,
    spawner: &mut CalmSpawner,
    commands: &[Vec<String>],
    children: &mut Vec<Child>,
) {
    let started = start_all_calmly(spawner, commands, children);
    let found = (started, children.len(), spawner.faults());
    same(rt, "the starts", &found, &(AllStarted::Ok, 2, 0));
    let starts = spawner.started().expect(rt, "told");
    is_two(rt, starts.last().expect(rt, "started"));
}

// A spawner that never fails, of these statuses.
fn calm_spawner_of(rt: &impl Abort, alloc: Global, statuses: &[u8]) -> CalmSpawner {
    CalmSpawner::new(alloc, statuses.to_vec(alloc).expect(rt, "memory"))
}

#[test]
fn a_calm_spawner_keeps_the_words_of_each_start(rt: HostRuntime) {
    let alloc = rt.alloc();
    let mut spawner = calm_spawner_of(&rt, alloc, &[]);
    keeps_words(
        &rt,
        &mut spawner,
        &two_commands(&rt, alloc),
        &mut Vec::new(alloc),
    );
}

fn answers_the_second(rt: &impl Abort, spawner: &mut CalmSpawner, link: &CalmLink) {
    let children = [Child::new(0), Child::new(1), Child::new(2)];
    let bad = ChildWait {
        child: Child::new(1),
        status: Some(3),
    };
    let found = wait_all(spawner, &children, link);
    same(rt, "the first", &found, &Some(bad));
    same(
        rt,
        "the waits",
        &spawner.awaited().expect(rt, "told").len(),
        &3,
    );
}

#[test]
fn the_first_child_that_ends_badly_is_answered(rt: HostRuntime) {
    let alloc = rt.alloc();
    let mut spawner = calm_spawner_of(&rt, alloc, &[0, 3, 4]);
    answers_the_second(&rt, &mut spawner, &CalmLink::new(alloc, Vec::new(alloc)));
}

// A spawner of these statuses, whose calls of these numbers fail.
fn spawner_of(
    rt: &impl Abort,
    alloc: Global,
    statuses: &[Option<u8>],
    failing: &[u64],
) -> MemSpawner {
    let statuses = statuses.to_vec(alloc).expect(rt, "memory");
    MemSpawner::new(alloc, statuses, failing.to_vec(alloc).expect(rt, "memory"))
}

fn fails_a_start(
    rt: &impl Abort,
    spawner: &mut MemSpawner,
    commands: &[Vec<String>],
    children: &mut Vec<Child>,
) {
    let started = start_all(spawner, commands, children);
    let found = (started, children.len(), spawner.faults());
    same(rt, "the starts", &found, &(AllStarted::Failed, 1, 1));
    same(
        rt,
        "the started",
        &spawner.started().expect(rt, "told").len(),
        &1,
    );
}

#[test]
fn a_start_fails_where_told(rt: HostRuntime) {
    let alloc = rt.alloc();
    let mut spawner = spawner_of(&rt, alloc, &[], &[2]);
    fails_a_start(
        &rt,
        &mut spawner,
        &two_commands(&rt, alloc),
        &mut Vec::new(alloc),
    );
}

// The first child ends with status 0, and the second without one.
const STATUSES: [Option<u8>; 2] = [Some(0), None];

// A wait for this child has this status, and there were so many faults by then.
fn waits(
    rt: &impl Abort,
    spawner: &mut MemSpawner,
    link: &CalmLink,
    child: u64,
    wanted: (Option<u8>, u64),
) {
    let status = spawner.wait(Child::new(child), link);
    same(rt, "a wait", &(status, spawner.faults()), &wanted);
}

fn fails_two_waits(rt: &impl Abort, spawner: &mut MemSpawner, link: &CalmLink) {
    waits(rt, spawner, link, 0, (None, 1));
    waits(rt, spawner, link, 0, (Some(0), 1));
    waits(rt, spawner, link, 1, (None, 2));
    same(
        rt,
        "the waits",
        &spawner.awaited().expect(rt, "told").len(),
        &3,
    );
}

#[test]
fn a_wait_fails_where_told_and_without_a_status(rt: HostRuntime) {
    let alloc = rt.alloc();
    let mut spawner = spawner_of(&rt, alloc, &STATUSES, &[1]);
    fails_two_waits(&rt, &mut spawner, &CalmLink::new(alloc, Vec::new(alloc)));
}
