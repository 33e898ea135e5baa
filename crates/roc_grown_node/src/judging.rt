//! Deliveries of two files, and datagrams that are skipped.
ghost use Rattle.std.specs.Prelude.{◌≡◌, IfOk};
ghost use Rattle.roc_grown_node.specs.Judgement.{IsGrownSpelled, IsForNode, grown_judged, is_delivered, is_past};
ghost use Rattle.roc_grown_node.specs.Setting.{grown_setting_of, own_tag};

use crate::GrownSetting;
use roc_base::{NoMemory, Node};
use roc_epoch::{File, file_of, is_between};
use roc_msg::Msg;
use roc_node::Skip;
use roc_wire::{Header, WireFault, decode};
use std::alloc::Global;

/// What bytes that came are to a node that may go over.
#[derive(Drop)]
pub enum GrownJudged {
    /// A message of a file, with who says that it sent it.
    Delivery(Header, File, Msg),
    /// Nothing that the node takes.
    Skipped(Skip),
}

/// What bytes are to a node that has switched or not. `NoMemory` is of the message alone.
pub fn grown_judge(
    alloc: Global,
    setting: GrownSetting<'_>,
    switched: bool,
    bytes: &[u8],
) -> Result<GrownJudged, NoMemory>
    ensures is { IfOk result (λ found. found ≡ grown_judged (grown_setting_of setting.entry) switched bytes.now) }
    // A delivery has a spelling: these bytes.
    ensures fits { IfOk result IsGrownSpelled }
    // The node does not skip it.
    ensures for_node { IfOk result (IsForNode switched) }
{
    match decode(alloc, bytes) {
        Ok((header, msg)) => {
            if is_delivered(setting, switched, &header, &msg) {
                let file = file_of(switched, &msg);
                Ok(GrownJudged::Delivery(header, file, msg))
            } else {
                Ok(GrownJudged::Skipped(Skip::Tag))
            }
        }
        Err(WireFault::NoMemory) => Err(NoMemory),
        Err(fault) => Ok(GrownJudged::Skipped(Skip::Fault(fault))),
    }
}

// Whether a message with this header is taken.
fn is_delivered(setting: GrownSetting<'_>, switched: bool, header: &Header, msg: &Msg) -> bool
    ensures { result ≡ is_delivered (grown_setting_of setting.entry) switched header.now msg.now }
{
    if is_past(setting.next.coords, header.from) {
        return false;
    }
    if header.tag == own_tag(setting, switched) {
        return true;
    }
    is_between(msg) && header.tag == setting.header.tag
}

// Whether a node is a coordinator past the first so many.
fn is_past(coords: u16, node: Node) -> bool
    ensures { result ≡ is_past coords node }
{
    match node {
        Node::Server(_) => false,
        Node::Coord(number) => number >= coords,
    }
}

/// The tag of the file that a node runs, which has switched or not.
pub(crate) fn own_tag(setting: GrownSetting<'_>, switched: bool) -> [u8; 8]
    ensures { result ≡ own_tag (grown_setting_of setting.entry) switched }
{
    if switched {
        setting.next.tag
    } else {
        setting.header.tag
    }
}
