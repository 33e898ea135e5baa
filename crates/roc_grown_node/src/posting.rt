//! Messages of two files on their way.
ghost use Rattle.std.specs.Prelude.{◌≡◌, length, IfOk};
ghost use Rattle.roc_wire.specs.Fits.{FitsHeader};
ghost use Rattle.roc_grown_node.specs.Posting.{header_for, grown_packets_for};
ghost use Rattle.roc_grown_node.specs.Setting.{grown_setting_of};

use crate::GrownSetting;
use crate::judging::own_tag;
use roc_base::NoMemory;
use roc_epoch::is_between;
use roc_io::Datagram;
use roc_msg::{Msg, Outgoing};
use roc_node::{Heard, post};
use roc_wire::Header;
use std::alloc::Global;
use std::slice;

// What stands before a message that a node sends, which has switched or not.
fn header_for(setting: GrownSetting<'_>, switched: bool, msg: &Msg) -> Header
    requires { FitsHeader setting.header.now }
    ensures is { result ≡ header_for (grown_setting_of setting.entry) switched msg.now }
    ensures fits { FitsHeader result }
{
    let tag = if is_between(msg) {
        setting.header.tag
    } else {
        own_tag(setting, switched)
    };
    Header {
        tag,
        from: setting.header.from,
    }
}

/// The datagrams that messages are sent as, in order, by a node that has switched or not. A message that goes nowhere, or has no spelling, is none.
pub fn grown_post(
    alloc: Global,
    setting: GrownSetting<'_>,
    switched: bool,
    heard: &Heard,
    outs: &[Outgoing],
) -> Result<Vec<Datagram>, NoMemory>
    requires header { FitsHeader setting.header.now }
    requires cluster { length setting.cluster.now ≡ setting.plan.now.program.shards }
    ensures { IfOk result (λ packets. packets.items ≡ grown_packets_for (grown_setting_of setting.entry) switched heard.now outs.now) }
{
    let shards = setting.plan.workload().shards();
    let mut packets = Vec::new(alloc);
    for out in outs {
        let header = header_for(setting, switched, &out.msg);
        let mut sent = post(
            alloc,
            &header,
            setting.cluster,
            shards,
            heard,
            slice::from_ref(out),
        )?;
        packets.append(&mut sent)?;
    }
    Ok(packets)
}
