//! Numbers, ids and entries, digit by digit: most of a report is these, and a format string is several times as slow.
ghost use Rattle.std.specs.Prelude.{◌≡◌, ◌++◌, OnOk};
ghost use Rattle.std.specs.Fmt.{decimal};
ghost use Rattle.std.specs.String.{string_bytes};
ghost use Rattle.roc_base.specs.TxnId.{txn_text};
ghost use Rattle.roc_report.specs.Text.{edge_text, spaced, tags_text};

use itoa::Buffer;
use roc_base::{Edge, Shard, TxnId};
use std::alloc::AllocError;

// Adds a number.
pub(crate) fn push_number(text: &mut String, number: u64) -> Result<(), AllocError>
    ensures { OnOk result (string_bytes text.new ≡ string_bytes text.old ++ decimal number) }
{
    let mut buffer = Buffer::new();
    text.push_str(buffer.format(number))
}

// Adds an id.
pub(crate) fn push_id(text: &mut String, id: TxnId) -> Result<(), AllocError>
    ensures { OnOk result (string_bytes text.new ≡ string_bytes text.old ++ txn_text id) }
{
    push_number(text, u64::from(id.coord))?;
    text.push('.')?;
    push_number(text, u64::from(id.seq))
}

// Adds a predecessor, a space before it.
pub(crate) fn push_edge(text: &mut String, edge: Edge) -> Result<(), AllocError>
    ensures { OnOk result (string_bytes text.new ≡ string_bytes text.old ++ spaced (edge_text edge)) }
{
    text.push(' ')?;
    push_id(text, edge.from())?;
    text.push('/')?;
    text.push_str(tags(edge))?;
    text.push('@')?;
    let Shard(at) = edge.at();
    push_number(text, u64::from(at))
}

// The tags of a predecessor: i, d or id.
fn tags(edge: Edge) -> &'static str
    ensures { result.now ≡ tags_text edge.imm edge.def }
{
    match (edge.imm(), edge.def()) {
        (true, true) => "id",
        (true, false) => "i",
        (false, true) => "d",
        (false, false) => "",
    }
}
