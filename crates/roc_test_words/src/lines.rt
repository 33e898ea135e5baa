//! Lines of words, and what they ask for.
use roc_base::Shard;
use roc_cli_words::{Ask, Asked, Growth, Later, Part, Serving, Submitting, ask};
use std::alloc::{AllocError, Global};
use std::process::Abort;
use std::test::Fail;

pub(crate) fn given(alloc: Global, words: &[&str]) -> Result<Vec<String>, AllocError> {
    let mut given = Vec::new(alloc);
    for word in words {
        given.push(String::from_str(alloc, word)?)?;
    }
    Ok(given)
}

// Whether a workload is to grow in one way.
fn is_grown_alike(one: Option<Growth>, other: Option<Growth>) -> bool {
    match (one, other) {
        (Some(one), Some(other)) => one.workload == other.workload && one.coords == other.coords,
        (None, None) => true,
        _ => false,
    }
}

// The same of a coordinator.
fn is_later_alike(one: Option<Later>, other: Option<Later>) -> bool {
    match (one, other) {
        (Some(one), Some(other)) => {
            one.workload == other.workload && one.requests == other.requests
        }
        (None, None) => true,
        _ => false,
    }
}

// Whether a shard is to be served in one way.
fn is_served_alike(one: Serving, other: Serving) -> bool {
    one.workload == other.workload
        && one.cluster == other.cluster
        && one.shard == other.shard
        && one.turns == other.turns
        && one.counts == other.counts
        && one.journal == other.journal
        && one.log == other.log
        && is_grown_alike(one.growth, other.growth)
}

// Whether requests are to be submitted in one way.
fn is_submitted_alike(one: Submitting, other: Submitting) -> bool {
    one.workload == other.workload
        && one.cluster == other.cluster
        && one.requests == other.requests
        && one.coord == other.coord
        && one.turns == other.turns
        && one.log == other.log
        && is_later_alike(one.growth, other.growth)
}

// Whether two commands are one, with the same names and values.
fn is_same(one: Ask, other: Ask) -> bool {
    match one {
        Ask::Check { workload: w } => matches!(other, Ask::Check { workload } if workload == w),
        Ask::Print { workload: w } => matches!(other, Ask::Print { workload } if workload == w),
        Ask::Replay {
            workload: w,
            schedule: s,
            growth: g,
        } => {
            matches!(other, Ask::Replay { workload, schedule, growth }
                if workload == w && schedule == s && is_grown_alike(growth, g))
        }
        Ask::Serve(own) => matches!(other, Ask::Serve(asked) if is_served_alike(own, asked)),
        Ask::Submit(own) => matches!(other, Ask::Submit(asked) if is_submitted_alike(own, asked)),
        Ask::Stop {
            workload: w,
            cluster: c,
        } => { matches!(other, Ask::Stop { workload, cluster } if workload == w && cluster == c) }
        Ask::Local {
            workload: w,
            cluster: c,
            requests: r,
            turns: t,
        } => {
            matches!(other, Ask::Local { workload, cluster, requests, turns }
                if workload == w && cluster == c && requests == r && turns == t)
        }
        Ask::Gen {
            seed: a,
            shards: n,
            txns: m,
            part: p,
        } => {
            matches!(other, Ask::Gen { seed, shards, txns, part }
                if seed == a && shards == n && txns == m && part == p)
        }
        Ask::Audit { workload: w } => matches!(other, Ask::Audit { workload } if workload == w),
    }
}

fn are_asked(rt: &impl Abort, alloc: Global, cases: &[(&[&str], Ask)]) -> Result<(), AllocError> {
    for (words, wanted) in cases {
        let given = given(alloc, words)?;
        match ask(alloc, &given) {
            Ok(found) => assert!(rt; is_same(found.ask, *wanted)),
            Err(_) => panic!(rt; "no command"),
        }
    }
    Ok(())
}

const COMMANDS: [(&[&str], Ask<'static>); 9] = [
    (&["check", "w"], Ask::Check { workload: "w" }),
    (&["print", "w"], Ask::Print { workload: "w" }),
    (
        &["replay", "w", "s"],
        Ask::Replay {
            workload: "w",
            schedule: "s",
            growth: None,
        },
    ),
    (
        &["replay", "--coords=16", "w", "--next", "v", "s"],
        Ask::Replay {
            workload: "w",
            schedule: "s",
            growth: Some(Growth {
                workload: "v",
                coords: 16,
            }),
        },
    ),
    (
        &["stop", "w", "c"],
        Ask::Stop {
            workload: "w",
            cluster: "c",
        },
    ),
    (
        &["local", "w", "c", "r", "--turns", "2000"],
        Ask::Local {
            workload: "w",
            cluster: "c",
            requests: "r",
            turns: 2000,
        },
    ),
    (
        &["gen", "18446744073709551615", "64", "1000", "workload"],
        Ask::Gen {
            seed: 18_446_744_073_709_551_615,
            shards: 64,
            txns: 1000,
            part: Part::Workload,
        },
    ),
    (
        &["gen", "0", "1", "1", "schedule"],
        Ask::Gen {
            seed: 0,
            shards: 1,
            txns: 1,
            part: Part::Schedule,
        },
    ),
    (
        &["gen", "7", "2", "20", "run"],
        Ask::Gen {
            seed: 7,
            shards: 2,
            txns: 20,
            part: Part::Run,
        },
    ),
];

#[test]
fn words_of_commands_ask_for_them(rt: HostRuntime) -> Result<(), Fail> {
    are_asked(&rt, rt.alloc(), &COMMANDS)?;
    Ok(())
}

const SERVERS: [(&[&str], Ask<'static>); 3] = [
    (
        &["serve", "w", "c", "--shard", "63", "--turns", "4294967295"],
        Ask::Serve(Serving {
            workload: "w",
            cluster: "c",
            shard: Shard(63),
            turns: 4_294_967_295,
            counts: false,
            journal: None,
            log: None,
            growth: None,
        }),
    ),
    (
        &[
            "serve",
            "--shard",
            "0",
            "w",
            "--counts",
            "--turns=10",
            "--journal",
            "j",
            "c",
        ],
        Ask::Serve(Serving {
            workload: "w",
            cluster: "c",
            shard: Shard(0),
            turns: 10,
            counts: true,
            journal: Some("j"),
            log: None,
            growth: None,
        }),
    ),
    (
        &[
            "serve",
            "--next=v",
            "w",
            "c",
            "--shard=1",
            "--turns=2",
            "--coords",
            "1",
        ],
        Ask::Serve(Serving {
            workload: "w",
            cluster: "c",
            shard: Shard(1),
            turns: 2,
            counts: false,
            journal: None,
            log: None,
            growth: Some(Growth {
                workload: "v",
                coords: 1,
            }),
        }),
    ),
];

#[test]
fn words_of_a_server_ask_for_it(rt: HostRuntime) -> Result<(), Fail> {
    are_asked(&rt, rt.alloc(), &SERVERS)?;
    Ok(())
}

const COORDINATORS: [(&[&str], Ask<'static>); 3] = [
    (
        &["submit", "w", "c", "r", "--coord", "15", "--turns", "1"],
        Ask::Submit(Submitting {
            workload: "w",
            cluster: "c",
            requests: "r",
            coord: 15,
            turns: 1,
            log: None,
            growth: None,
        }),
    ),
    (
        &[
            "submit", "--log=l", "w", "c", "--coord", "0", "--turns", "2", "r",
        ],
        Ask::Submit(Submitting {
            workload: "w",
            cluster: "c",
            requests: "r",
            coord: 0,
            turns: 2,
            log: Some("l"),
            growth: None,
        }),
    ),
    (
        &[
            "submit",
            "--then",
            "s",
            "w",
            "c",
            "r",
            "--coord=0",
            "--turns=2",
            "--next",
            "v",
        ],
        Ask::Submit(Submitting {
            workload: "w",
            cluster: "c",
            requests: "r",
            coord: 0,
            turns: 2,
            log: None,
            growth: Some(Later {
                workload: "v",
                requests: "s",
            }),
        }),
    ),
];

#[test]
fn words_of_a_coordinator_ask_for_it(rt: HostRuntime) -> Result<(), Fail> {
    are_asked(&rt, rt.alloc(), &COORDINATORS)?;
    Ok(())
}

fn are_names(logs: &[&str], wanted: &[&str]) -> bool {
    logs == wanted
}

// Whether it is asked for an audit of exactly these logs.
fn is_audit(asked: &Asked, wanted: &[&str]) -> bool {
    match asked.ask {
        Ask::Audit { workload } => workload == "w" && are_names(asked.logs.as_slice(), wanted),
        _ => false,
    }
}

fn audits(alloc: Global, words: &[&str], wanted: &[&str]) -> Result<bool, AllocError> {
    let given = given(alloc, words)?;
    match ask(alloc, &given) {
        Ok(found) => Ok(is_audit(&found, wanted)),
        Err(_) => Ok(false),
    }
}

#[test]
fn words_of_an_audit_name_its_logs(rt: HostRuntime) -> Result<(), Fail> {
    let alloc = rt.alloc();
    assert!(rt; audits(alloc, &["audit", "w", "a"], &["a"])?);
    assert!(rt;
        audits(
            alloc,
            &["audit", "w", "b", "--", "-a", "b"],
            &["b", "-a", "b"]
        )?
    );
    Ok(())
}
