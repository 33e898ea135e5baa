//! What the words of a line ask for.

ghost use Rattle.std.specs.Prelude.{ℕ, option_map};
ghost use Rattle.roc_base.specs.declared.node.Node.TheVariants.{Coord};
ghost use Rattle.roc_sched.specs.declared.forms.Forms.{Forms as FormsValue};
ghost use Rattle.roc_sched.specs.Each.{each};
ghost use Rattle.roc_sched.specs.Forms.{coordinators};
ghost use Rattle.roc_sched.specs.Numbers.{integer_of, node_number};
ghost use Rattle.roc_sched.specs.Acts.{submission_of, delivery_of, choice_of, server_of, node_of, tick_of, further_act, act_of, or_word, or_node, request_at};
ghost use Rattle.roc_sched.specs.Inner.Reading.{Gives, views, or_no_node};

use crate::Forms;
use crate::fault::{LineFault, What};
use crate::line::{Act, Request};
use crate::name::ProcedureName;
use crate::number::{choice_number, integer_of, is_name, is_word, message_of, node_number};
use crate::stops::{drain_of, stop_of};
use roc_base::{Node, Nums, Shard};
use std::alloc::Global;

fn args_of(alloc: Global, words: &[&[u8]]) -> Result<Nums, LineFault>
    ensures { Gives result (or_word (each integer_of (views words.now))) }
{
    let mut args = Nums::new(alloc);
    for word in words {
        match integer_of(word) {
            Some(n) => args.push(n)?,
            None => return Err(LineFault::Is(What::Word)),
        }
    }
    Ok(args)
}

/// `C NAME A1 A2 ..`
fn submission_of(alloc: Global, words: &[&[u8]], forms: Forms) -> Result<Act, LineFault>
    ensures { (shards : ℕ) → Gives result (or_node forms shards (or_word (submission_of (views words.now)))) }
{
    match words {
        [coord, name, args @ ..] => {
            if !is_name(name) {
                return Err(LineFault::Is(What::Word));
            }
            let Some(coord) = node_number(coord) else {
                return Err(LineFault::Is(What::Word));
            };
            let numbers = args_of(alloc, args)?;
            if coord >= u64::from(forms.coordinators()) {
                return Err(LineFault::Is(What::Node));
            }
            let name = ProcedureName::copied(alloc, name)?;
            Ok(Act::Submit {
                coord: coord as u16,
                name,
                args: numbers,
            })
        }
        _ => Err(LineFault::Is(What::Word)),
    }
}

/// `K`
fn delivery_of(words: &[&[u8]]) -> Result<Act, LineFault>
    ensures { (forms : FormsValue) (shards : ℕ) → Gives result (or_node forms shards (or_word (delivery_of (views words.now)))) }
{
    match words {
        [message] => match message_of(message) {
            Some(message) => Ok(Act::Deliver(message)),
            None => Err(LineFault::Is(What::Word)),
        },
        _ => Err(LineFault::Is(What::Word)),
    }
}

/// `J`
fn choice_of(words: &[&[u8]]) -> Result<Act, LineFault>
    ensures { (forms : FormsValue) (shards : ℕ) → Gives result (or_node forms shards (or_word (choice_of (views words.now)))) }
{
    match words {
        [place] => match choice_number(place) {
            Some(place) => Ok(Act::Any(place)),
            None => Err(LineFault::Is(What::Word)),
        },
        _ => Err(LineFault::Is(What::Word)),
    }
}

/// The server of a shard, whatever the coordinators are.
fn server_of(number: &[u8], shards: u8) -> Result<Node, LineFault>
    ensures { (coords : ℕ) → Gives result (or_no_node coords shards (or_word (option_map server_of (node_number number.now)))) }
{
    match node_number(number) {
        Some(number) => {
            if number < u64::from(shards) {
                Ok(Node::Server(Shard(number as u8)))
            } else {
                Err(LineFault::Is(What::Node))
            }
        }
        None => Err(LineFault::Is(What::Word)),
    }
}

/// A coordinator, whatever the shards are.
fn coordinator_of(number: &[u8], coords: u16) -> Result<Node, LineFault>
    ensures { (shards : ℕ) → Gives result (or_no_node coords shards (or_word (option_map Coord (node_number number.now)))) }
{
    match node_number(number) {
        Some(number) => {
            if number < u64::from(coords) {
                Ok(Node::Coord(number as u16))
            } else {
                Err(LineFault::Is(What::Node))
            }
        }
        None => Err(LineFault::Is(What::Word)),
    }
}

/// `sN` or `cN`, where there is such a node.
#[tactic(auto, unfolding(crate::specs::Acts::node_of))]
fn node_of(word: &[u8], shards: u8, coords: u16) -> Result<Node, LineFault>
    ensures { Gives result (or_no_node coords shards (or_word (node_of word.now))) }
{
    match word.split_first() {
        Some((letter, number)) => {
            if *letter == b's' {
                server_of(number, shards)
            } else if *letter == b'c' {
                coordinator_of(number, coords)
            } else {
                Err(LineFault::Is(What::Word))
            }
        }
        None => Err(LineFault::Is(What::Word)),
    }
}

/// `sN` or `cN`
fn tick_of(words: &[&[u8]], shards: u8, forms: Forms) -> Result<Act, LineFault>
    ensures { Gives result (or_node forms shards (or_word (tick_of (views words.now)))) }
{
    match words {
        [word] => match node_of(word, shards, forms.coordinators()) {
            Ok(node) => Ok(Act::Tick(node)),
            Err(fault) => Err(fault),
        },
        _ => Err(LineFault::Is(What::Word)),
    }
}

/// `stop sN ..` or `drain cN`, where such lines are taken.
fn further_act(word: &[u8], words: &[&[u8]], shards: u8, forms: Forms) -> Result<Act, LineFault>
    ensures { Gives result (or_node forms shards (or_word (further_act forms word.now (views words.now)))) }
{
    if is_word(word, "stop") {
        if forms.stops {
            stop_of(words, shards)
        } else {
            Err(LineFault::Is(What::Word))
        }
    } else if is_word(word, "drain") {
        drain_of(words, forms)
    } else {
        Err(LineFault::Is(What::Word))
    }
}

/// `submit C NAME A1 A2 ..`, `deliver K`, `any J`, `tick sN`, `tick cN`, or a line of a further form.
#[tactic(auto, unfolding(crate::specs::Acts::act_of))]
pub(crate) fn act_of(
    alloc: Global,
    words: &[&[u8]],
    shards: u8,
    forms: Forms,
) -> Result<Act, LineFault>
    ensures { Gives result (or_node forms shards (or_word (act_of forms (views words.now)))) }
{
    match words.split_first() {
        Some((word, words)) => {
            if is_word(word, "submit") {
                submission_of(alloc, words, forms)
            } else if is_word(word, "deliver") {
                delivery_of(words)
            } else if is_word(word, "any") {
                choice_of(words)
            } else if is_word(word, "tick") {
                tick_of(words, shards, forms)
            } else {
                further_act(word, words, shards, forms)
            }
        }
        None => Err(LineFault::Is(What::Word)),
    }
}

/// `NAME A1 A2 ..`, at the line of a number.
pub(crate) fn request_at(alloc: Global, number: u32, words: &[&[u8]]) -> Result<Request, LineFault>
    ensures { Gives result (request_at number (views words.now)) }
{
    match words.split_first() {
        Some((name, args)) => {
            if !is_name(name) {
                return Err(LineFault::Is(What::Word));
            }
            let args = args_of(alloc, args)?;
            let name = ProcedureName::copied(alloc, name)?;
            Ok(Request {
                line: number,
                name,
                args,
            })
        }
        None => Err(LineFault::Is(What::Word)),
    }
}
