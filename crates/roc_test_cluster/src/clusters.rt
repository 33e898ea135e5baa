//! Cluster files and their first faults.
ghost use Rattle.std.specs.Prelude.{◌<◌};

use roc_base::Shard;
use roc_cluster::{ClusterFault, FieldName, parse_cluster};
use roc_io::Addr;
use std::alloc::Global;
use std::process::Abort;
use std::test::Fail;

/// Shard 1, then shard 0.
const TWO: &[u8] = b"[[shard]]
number = 1
host = \"10.0.0.255\"
port = 65535

[[shard]]
number = 0
host = \"127.0.0.1\"
port = 1
";

fn address(alloc: Global, text: &[u8], shard: u8) -> Result<Addr, ClusterFault>
    requires { shard < 2 }
{
    let cluster = parse_cluster(alloc, text, 2)?;
    Ok(cluster.addr(Shard(shard)))
}

#[test]
fn each_shard_has_its_address(rt: HostRuntime) {
    let first = Addr {
        host: [127, 0, 0, 1],
        port: 1,
    };
    let second = Addr {
        host: [10, 0, 0, 255],
        port: 65535,
    };
    assert_eq!(rt; address(rt.alloc(), TWO, 0), Ok(first));
    assert_eq!(rt; address(rt.alloc(), TWO, 1), Ok(second));
}

fn is_refused(rt: &impl Abort, alloc: Global, cases: &[(&[u8], u8, ClusterFault)]) {
    for (text, shards, wanted) in cases {
        match parse_cluster(alloc, text, *shards) {
            Ok(_) => panic!(rt; "a cluster"),
            Err(fault) => assert_eq!(rt; fault, *wanted),
        }
    }
}

#[test]
fn texts_have_their_first_fault(rt: HostRuntime) {
    let cases: [(&[u8], u8, ClusterFault); 10] = [
        (b"", 1, ClusterFault::Field(FieldName::Shard)),
        (b"\xff", 1, ClusterFault::Toml),
        (b"shard = 99999999999999999999", 1, ClusterFault::Toml),
        (
            b"shard = 1\nother = 2",
            1,
            ClusterFault::Field(FieldName::Other),
        ),
        (
            b"shard = [{ number = 1, host = \"1.2.3.4\", port = 1 }]",
            1,
            ClusterFault::Field(FieldName::Number),
        ),
        (
            b"shard = [{ number = 1, host = \"1.2.3.4\", port = 1 }]",
            2,
            ClusterFault::Gap(Shard(0)),
        ),
        (
            b"shard = [{ number = 0, host = \"01.2.3.4\", port = 0 }]",
            1,
            ClusterFault::Field(FieldName::Host),
        ),
        (
            b"shard = [{ number = 0, host = \"1.2.3.4.5\", port = 1 }]",
            1,
            ClusterFault::Field(FieldName::Host),
        ),
        (
            b"shard = [{ number = 0, host = \"1.2.3.4\", port = 65536 }]",
            1,
            ClusterFault::Field(FieldName::Port),
        ),
        (
            b"shard = [{ number = 0, host = \"1.2.3.4\", port = 1, zone = 1 }]",
            1,
            ClusterFault::Field(FieldName::Other),
        ),
    ];
    is_refused(&rt, rt.alloc(), cases.as_slice());
}

#[test]
fn a_number_stands_once(rt: HostRuntime) {
    let twice =
        b"shard = [{ number = 0, host = \"1.2.3.4\", port = 1 }, { number = 0, host = \"1.2.3.4\", port = 2 }]";
    let cases: [(&[u8], u8, ClusterFault); 1] = [(twice, 2, ClusterFault::Twice(Shard(0)))];
    is_refused(&rt, rt.alloc(), cases.as_slice());
}
