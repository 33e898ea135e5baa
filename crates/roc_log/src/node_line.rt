//! The first line of a log.

ghost use Rattle.std.specs.Prelude.{◌≡◌};
ghost use Rattle.std.specs.List.{list_any};
ghost use Rattle.std.specs.Option.{option_map};
ghost use Rattle.roc_base.specs.Node.{is_node};
ghost use Rattle.roc_base.specs.declared.node.Node.TheVariants.{Coord};
ghost use Rattle.roc_sched.specs.Numbers.{node_number};
ghost use Rattle.roc_sched.specs.Acts.{server_of, node_of};
ghost use Rattle.roc_log.specs.Reading.{named_node, or_there, or_unseen, first_line};
ghost use Rattle.roc_log.specs.Inner.Given.{Gives, views};

use crate::fault::{LineFault, What};
use crate::parts::parts_of;
use roc_base::{Node, Shard};
use roc_sched::{is_word, node_number};
use std::alloc::Global;

/// How many coordinators there are.
const COORDINATORS: u64 = 16;

/// The server of a shard.
fn server_of(number: &[u8], shards: u8) -> Result<Node, What>
    ensures { result ≡ or_there shards (option_map server_of (node_number number.now)) }
{
    match node_number(number) {
        Some(number) => {
            if number < u64::from(shards) {
                Ok(Node::Server(Shard(number as u8)))
            } else {
                Err(What::Node)
            }
        }
        None => Err(What::Word),
    }
}

/// A coordinator, whatever the shards are.
fn coordinator_of(number: &[u8], shards: u8) -> Result<Node, What>
    ensures { result ≡ or_there shards (option_map Coord (node_number number.now)) }
{
    match node_number(number) {
        Some(number) => {
            if number < COORDINATORS {
                Ok(Node::Coord(number as u16))
            } else {
                Err(What::Node)
            }
        }
        None => Err(What::Word),
    }
}

/// `sN` or `cN`, where there is such a node.
#[tactic(auto, unfolding(roc_sched::specs::Acts::node_of))]
fn node_of(word: &[u8], shards: u8) -> Result<Node, What>
    ensures { result ≡ or_there shards (node_of word.now) }
{
    match word.split_first() {
        Some((letter, number)) => {
            if *letter == b's' {
                server_of(number, shards)
            } else if *letter == b'c' {
                coordinator_of(number, shards)
            } else {
                Err(What::Word)
            }
        }
        None => Err(What::Word),
    }
}

/// `node sN` or `node cN`
fn named_node(words: &[&[u8]], shards: u8) -> Result<Node, What>
    ensures { result ≡ or_there shards (named_node (views words.now)) }
{
    match words {
        [word, node] => {
            if is_word(word, "node") {
                node_of(node, shards)
            } else {
                Err(What::Word)
            }
        }
        _ => Err(What::Word),
    }
}

fn is_same(a: Node, b: Node) -> bool
    ensures { result ≡ is_node a b }
{
    match (a, b) {
        (Node::Server(a), Node::Server(b)) => a.0 == b.0,
        (Node::Coord(a), Node::Coord(b)) => a == b,
        _ => false,
    }
}

fn is_seen(seen: &[Node], node: Node) -> bool
    ensures { result ≡ list_any (is_node node) seen.now }
{
    seen.iter().any(|other| is_same(node, *other))
}

fn unseen(seen: &[Node], named: Result<Node, What>) -> Result<Node, What>
    ensures { result ≡ or_unseen seen.now named }
{
    match named {
        Ok(node) => {
            if is_seen(seen, node) {
                Err(What::Twice(node))
            } else {
                Ok(node)
            }
        }
        Err(what) => Err(what),
    }
}

/// The node that the first line names.
#[tactic(auto, unfolding(crate::specs::Reading::first_line))]
pub(crate) fn first_line(
    alloc: Global,
    shards: u8,
    seen: &[Node],
    line: &[u8],
) -> Result<Node, LineFault>
    ensures { Gives (λ node. node) result (first_line shards seen.now line.now) }
{
    let words = parts_of(alloc, line, b' ')?;
    match unseen(seen, named_node(&words, shards)) {
        Ok(node) => Ok(node),
        Err(what) => Err(LineFault::Is(what)),
    }
}
