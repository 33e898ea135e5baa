//! Schedules and request files: their lines, told back, and the first faults of other texts.
use roc_base::{Node, Nums};
use roc_sched::{Act, Forms, ProcedureName, parse_requests, parse_schedule};
use std::alloc::{AllocError, Global};
use std::process::Abort;
use std::test::Fail;

// How many shards there are.
const SHARDS: u8 = 2;

const SCHEDULES: [(&[u8], &str); 41] = [
    (b"", ""),
    (
        b"submit 15 pay 0 -1 9223372036854775807\r\n\n# one\n  deliver   1  \n   \nany 0\ntick s1\ntick c15",
        "1 submit 15 pay 0 -1 9223372036854775807;4 deliver 1;6 any 0;7 tick s1;8 tick c15;",
    ),
    (
        b"submit 0 f\ndeliver 4294967295\nany 4294967295\n",
        "1 submit 0 f;2 deliver 4294967295;3 any 4294967295;",
    ),
    (b"submit 16 pay", "line 1: node"),
    (b"submit 9223372036854775807 pay", "line 1: node"),
    (b"submit 9223372036854775808 pay", "line 1: word"),
    (b"submit -1 pay", "line 1: word"),
    (b"submit 015 pay", "line 1: word"),
    (b"submit 16 pay 0 x", "line 1: word"),
    (b"submit 16 pay 9223372036854775808", "line 1: word"),
    (b"submit 16 shards", "line 1: word"),
    (
        b"submit 16 a2345678901234567890123456789012b",
        "line 1: word",
    ),
    (b"submit 16", "line 1: word"),
    (b"tick c16", "line 1: node"),
    (b"tick c9223372036854775807", "line 1: node"),
    (b"tick c9223372036854775808", "line 1: word"),
    (b"tick s2", "line 1: node"),
    (b"tick s9223372036854775807", "line 1: node"),
    (b"tick s9223372036854775808", "line 1: word"),
    (b"tick s01", "line 1: word"),
    (b"tick s-1", "line 1: word"),
    (b"tick s", "line 1: word"),
    (b"tick 0", "line 1: word"),
    (b"tick x0", "line 1: word"),
    (b"tick", "line 1: word"),
    (b"tick s0 s1", "line 1: word"),
    (b"tick\ts0", "line 1: word"),
    (b"any", "line 1: word"),
    (b"any 4294967296", "line 1: word"),
    (b"any -1", "line 1: word"),
    (b"any 00", "line 1: word"),
    (b"any 0 0", "line 1: word"),
    (b"deliver 0", "line 1: word"),
    (b"deliver 4294967296", "line 1: word"),
    (b"deliver", "line 1: word"),
    (b"deliver 1\r\r\n", "line 1: word"),
    (b" # no comment", "line 1: word"),
    (b"halt", "line 1: word"),
    (b"stop s0", "line 1: word"),
    (b"drain c0", "line 1: word"),
    (b"deliver 1\n\ntick s2\nhalt", "line 3: node"),
];

// The same where servers may be stopped and the first two coordinators drained.
const FURTHER: [(&[u8], &str); 25] = [
    (
        b"stop s0\nstop  s1 1 none\nstop s1 4294967295 0\nstop s0 2 4294967295\ndrain c1",
        "1 stop s0;2 stop s1 1 none;3 stop s1 4294967295 0;4 stop s0 2 4294967295;5 drain c1;",
    ),
    (b"submit 1 f\ntick c1", "1 submit 1 f;2 tick c1;"),
    (b"submit 2 f", "line 1: node"),
    (b"tick c2", "line 1: node"),
    (b"stop s2", "line 1: node"),
    (b"stop s9223372036854775807 1 0", "line 1: node"),
    (b"stop s2 1", "line 1: word"),
    (b"stop", "line 1: word"),
    (b"stop c0", "line 1: word"),
    (b"stop 0", "line 1: word"),
    (b"stop s00", "line 1: word"),
    (b"stop s0 0 none", "line 1: word"),
    (b"stop s0 4294967296 none", "line 1: word"),
    (b"stop s0 1 all", "line 1: word"),
    (b"stop s0 1 -1", "line 1: word"),
    (b"stop s0 1 00", "line 1: word"),
    (b"stop s0 1 4294967296", "line 1: word"),
    (b"stop s0 1 none 2", "line 1: word"),
    (b"stop s0 none", "line 1: word"),
    (b"drain", "line 1: word"),
    (b"drain s0", "line 1: word"),
    (b"drain 0", "line 1: word"),
    (b"drain c2", "line 1: node"),
    (b"drain c9223372036854775808", "line 1: word"),
    (b"drain c0 c1", "line 1: word"),
];

const REQUESTS: [(&[u8], &str); 6] = [
    (b"", ""),
    (
        b"add 5\r\n# two\n\n  add -7   8\nmark",
        "1 add 5;4 add -7 8;5 mark;",
    ),
    (b"5 add", "line 1: word"),
    (b"get 5", "line 1: word"),
    (b"add +5", "line 1: word"),
    (b"add 5\nadd 9223372036854775808\nadd x", "line 2: word"),
];

fn push_call(
    alloc: Global,
    text: &mut String,
    name: &ProcedureName,
    args: &Nums,
) -> Result<(), AllocError> {
    let name = String::from_utf8_lossy(alloc, name.as_bytes())?;
    write!(text, "{name}")?;
    for number in args.as_slice() {
        write!(text, " {number}")?;
    }
    Ok(())
}

fn push_act(alloc: Global, text: &mut String, act: &Act) -> Result<(), AllocError> {
    match act {
        Act::Submit { coord, name, args } => {
            write!(text, "submit {coord} ")?;
            push_call(alloc, text, name, args)
        }
        Act::Deliver(number) => write!(text, "deliver {number}"),
        Act::Any(place) => write!(text, "any {place}"),
        Act::Tick(node) => write!(text, "tick {node}"),
        Act::Stop { shard, during } => {
            let node = Node::Server(*shard);
            write!(text, "stop {node}")?;
            push_during(text, *during)
        }
        Act::Drain(coord) => write!(text, "drain c{coord}"),
    }
}

fn push_during(text: &mut String, during: Option<(u64, Option<u32>)>) -> Result<(), AllocError> {
    match during {
        None => Ok(()),
        Some((message, None)) => write!(text, " {message} none"),
        Some((message, Some(many))) => write!(text, " {message} {many}"),
    }
}

// What is read of a schedule: each line with its number, or the first fault.
fn schedule_told(alloc: Global, text: &[u8], forms: Forms) -> Result<String, AllocError> {
    let mut told = String::new(alloc);
    match parse_schedule(alloc, text, SHARDS, forms) {
        Ok(lines) => {
            for line in &lines {
                write!(&mut told, "{} ", line.number)?;
                push_act(alloc, &mut told, &line.act)?;
                told.push(';')?;
            }
        }
        Err(fault) => write!(&mut told, "{fault}")?,
    }
    Ok(told)
}

fn requests_told(alloc: Global, text: &[u8]) -> Result<String, AllocError> {
    let mut told = String::new(alloc);
    match parse_requests(alloc, text) {
        Ok(requests) => {
            for request in &requests {
                write!(&mut told, "{} ", request.line)?;
                push_call(alloc, &mut told, &request.name, &request.args)?;
                told.push(';')?;
            }
        }
        Err(fault) => write!(&mut told, "{fault}")?,
    }
    Ok(told)
}

fn are_schedules(
    rt: &impl Abort,
    alloc: Global,
    cases: &[(&[u8], &str)],
    forms: Forms,
) -> Result<(), Fail> {
    for (text, wanted) in cases {
        let told = schedule_told(alloc, text, forms)?;
        assert_eq!(rt; told.as_str(), *wanted);
    }
    Ok(())
}

fn are_requests(rt: &impl Abort, alloc: Global, cases: &[(&[u8], &str)]) -> Result<(), Fail> {
    for (text, wanted) in cases {
        let told = requests_told(alloc, text)?;
        assert_eq!(rt; told.as_str(), *wanted);
    }
    Ok(())
}

#[test]
fn lines_and_first_faults(rt: HostRuntime) -> Result<(), Fail> {
    let alloc = rt.alloc();
    are_schedules(&rt, alloc, &SCHEDULES, Forms::plain())?;
    are_requests(&rt, alloc, &REQUESTS)
}

#[test]
fn further_forms(rt: HostRuntime) -> Result<(), Fail> {
    let forms = Forms {
        stops: true,
        coords: Some(2),
    };
    are_schedules(&rt, rt.alloc(), &FURTHER, forms)
}

// So many line feeds, and a text behind them.
fn behind_lines(alloc: Global, count: usize, text: &[u8]) -> Result<Vec<u8>, AllocError> {
    let mut bytes = vec![in alloc; b'\n'; count]?;
    bytes.extend_from_slice(text)?;
    Ok(bytes)
}

// A comment of so many bytes.
fn comment(alloc: Global, count: usize) -> Result<Vec<u8>, AllocError> {
    vec![in alloc; b'#'; count]
}

#[test]
fn limits_of_texts(rt: HostRuntime) -> Result<(), Fail> {
    let alloc = rt.alloc();
    let most_lines = behind_lines(alloc, 65_535, b"add 5")?;
    let a_line_more = behind_lines(alloc, 65_536, b"#")?;
    let a_wrong_line_more = behind_lines(alloc, 65_536, b"0 x")?;
    let most_bytes = comment(alloc, 8_388_608)?;
    let a_byte_more = comment(alloc, 8_388_609)?;
    let cases = [
        (most_lines.as_slice(), "65536 add 5;"),
        (a_line_more.as_slice(), "line 65537: limit"),
        (a_wrong_line_more.as_slice(), "line 65537: limit"),
        (most_bytes.as_slice(), ""),
        (a_byte_more.as_slice(), "line 1: limit"),
    ];
    are_requests(&rt, alloc, &cases)?;
    are_schedules(&rt, alloc, &cases[1..], Forms::plain())
}
