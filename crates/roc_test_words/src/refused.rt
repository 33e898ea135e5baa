//! Lines of words that are refused, or name no value.
use crate::lines::given;
use roc_cli_words::{ValueName, WordsFault, ask};
use std::alloc::{AllocError, Global};
use std::process::Abort;
use std::test::Fail;

fn are_refused(rt: &impl Abort, alloc: Global, cases: &[&[&str]]) -> Result<(), AllocError> {
    for words in cases {
        let given = given(alloc, words)?;
        match ask(alloc, &given) {
            Err(WordsFault::Refused(text)) => assert!(rt; text.len() > 0),
            _ => panic!(rt; "not refused"),
        }
    }
    Ok(())
}

#[test]
fn other_words_are_refused(rt: HostRuntime) -> Result<(), Fail> {
    let cases: [&[&str]; 21] = [
        &[],
        &["run", "w"],
        &["--help"],
        &["help"],
        &["-h"],
        &["help", "check"],
        &["check", "--help"],
        &["check", "w", "-h"],
        &["check"],
        &["check", "w", "s"],
        &["serve", "w", "c", "--shard", "1"],
        &["serve", "w", "c", "--shard", "1", "--turns"],
        &["serve", "w", "c", "--shard=1", "--turns=1", "--journal"],
        &["print", "w", "--turns", "1"],
        &["audit", "w"],
        &["audit", "w", "a", "--log", "l"],
        &["stop", "w", "c", "--log", "l"],
        &["replay", "w", "s", "--next"],
        &["check", "w", "--next", "v"],
        &[
            "submit",
            "w",
            "c",
            "r",
            "--coord=0",
            "--turns=1",
            "--coords=1",
        ],
        &["serve", "w", "c", "--shard=1", "--turns=1", "--then=r"],
    ];
    are_refused(&rt, rt.alloc(), &cases)?;
    Ok(())
}

fn are_no_values(
    rt: &impl Abort,
    alloc: Global,
    cases: &[(&[&str], ValueName)],
) -> Result<(), AllocError> {
    for (words, wanted) in cases {
        let given = given(alloc, words)?;
        match ask(alloc, &given) {
            Err(WordsFault::Value(name)) => assert_eq!(rt; name, *wanted),
            _ => panic!(rt; "a value"),
        }
    }
    Ok(())
}

// Words with a value that is none.
const NO_VALUES: [(&[&str], ValueName); 26] = [
    (&["local", "w", "c", "r", "--turns", "0"], ValueName::Turns),
    (
        &["local", "w", "c", "r", "--turns", "007"],
        ValueName::Turns,
    ),
    (&["local", "w", "c", "r", "--turns", "+5"], ValueName::Turns),
    (
        &["local", "w", "c", "r", "--turns", "4294967296"],
        ValueName::Turns,
    ),
    (
        &["local", "w", "c", "r", "--turns", "18446744073709551616"],
        ValueName::Turns,
    ),
    (&["local", "w", "c", "r", "--turns=-1"], ValueName::Turns),
    (
        &["serve", "w", "c", "--turns", "0", "--shard", "64"],
        ValueName::Shard,
    ),
    (
        &["submit", "w", "c", "r", "--coord", "16", "--turns", "1"],
        ValueName::Coord,
    ),
    (
        &["gen", "18446744073709551616", "1", "1", "run"],
        ValueName::Seed,
    ),
    (&["gen", "0", "0", "1", "run"], ValueName::Shards),
    (&["gen", "0", "65", "1", "run"], ValueName::Shards),
    (&["gen", "0", "1", "1001", "run"], ValueName::Txns),
    (&["gen", "0", "1", "1", "all"], ValueName::Part),
    (
        &[
            "serve",
            "w",
            "c",
            "--shard=1",
            "--turns=0",
            "--journal=j",
            "--log=l",
        ],
        ValueName::Turns,
    ),
    (
        &[
            "serve",
            "w",
            "c",
            "--shard=1",
            "--turns=1",
            "--log=l",
            "--journal=j",
        ],
        ValueName::Log,
    ),
    (&["replay", "w", "s", "--coords", "0"], ValueName::Coords),
    (
        &["replay", "w", "s", "--next=v", "--coords=17"],
        ValueName::Coords,
    ),
    (
        &["replay", "w", "s", "--next=v", "--coords=01"],
        ValueName::Coords,
    ),
    (&["replay", "w", "s", "--next", "v"], ValueName::Next),
    (&["replay", "w", "s", "--coords", "1"], ValueName::Next),
    (
        &["serve", "w", "c", "--shard=1", "--turns=1", "--next=v"],
        ValueName::Next,
    ),
    (
        &[
            "serve",
            "w",
            "c",
            "--shard=1",
            "--turns=1",
            "--next=v",
            "--coords=1",
            "--log=l",
        ],
        ValueName::Next,
    ),
    (
        &[
            "serve",
            "w",
            "c",
            "--shard=1",
            "--turns=1",
            "--next=v",
            "--journal=j",
            "--log=l",
        ],
        ValueName::Log,
    ),
    (
        &[
            "serve",
            "w",
            "c",
            "--shard=1",
            "--turns=1",
            "--log=l",
            "--journal=j",
            "--coords=0",
        ],
        ValueName::Coords,
    ),
    (
        &[
            "submit",
            "w",
            "c",
            "r",
            "--coord=0",
            "--turns=1",
            "--then=s",
        ],
        ValueName::Next,
    ),
    (
        &[
            "submit",
            "w",
            "c",
            "r",
            "--coord=0",
            "--turns=1",
            "--next=v",
            "--then=s",
            "--log=l",
        ],
        ValueName::Next,
    ),
];

#[test]
fn values_have_their_ranges(rt: HostRuntime) -> Result<(), Fail> {
    are_no_values(&rt, rt.alloc(), &NO_VALUES)?;
    Ok(())
}
