//! Children of the test program.
use crate::same::same;
use roc_io::{Child, Link, Spawner, Started};
use roc_io_real::{RealLink, RealSpawner};
use std::process::Abort;
use std::test::Fail;

/// What the child below runs: a test program runs the one test whose name it is given.
#[test]
fn nothing_happens() {}

fn running<S: Spawner>(rt: &impl Abort, spawner: &mut S, words: &[String]) -> Child {
    match spawner.start(words) {
        Started::Running(child) => child,
        _ => panic!(rt; "no child"),
    }
}

fn ends_well<S: Spawner, L: Link>(rt: &impl Abort, spawner: &mut S, link: &L, words: &[String]) {
    let child = running(rt, spawner, words);
    same(rt, "the child", &child, &Child::new(0));
    same(rt, "its status", &spawner.wait(child, link), &Some(0));
    let other = spawner.wait(Child::new(1), link);
    same(rt, "the status of no child", &other, &None);
    same(rt, "the faults", &spawner.faults(), &1);
}

#[test]
fn a_child_ends_with_its_status(rt: HostRuntime) -> Result<(), Fail> {
    let alloc = rt.alloc();
    let words = vec![in alloc; String::from_str(alloc, "children::nothing_happens")?]?;
    let mut spawner = RealSpawner::new(alloc, &rt);
    ends_well(&rt, &mut spawner, &RealLink::new(alloc, &rt), &words);
    Ok(())
}
