//! The text of the generated workload.
ghost use Rattle.std.specs.Prelude.{◌≡◌, ◌++◌, OnOk};
ghost use Rattle.std.specs.List.{flat_map, range_with_len};
ghost use Rattle.std.specs.String.{string_bytes};
ghost use Rattle.roc_generate.specs.WorkloadText.{account_line, pay_lines, mark_lines, generated_workload};

use std::alloc::AllocError;

const PAY: &str = "proc pay(f,t,n) {\n  \
     later take at f {\n    \
     get b = acct[0].bal;\n    \
     set acct[0].bal = b - n;\n    \
     out b;\n  \
     }\n  \
     later give at t {\n    \
     get d = acct[0].bal;\n    \
     set acct[0].bal = d + n;\n    \
     out d;\n  \
     }\n\
     }\n";

const MARK: &str = "proc mark(p,q) {\n  \
     now r at p {\n    \
     get u = ctr[0].n;\n  \
     }\n  \
     now w at p {\n    \
     set ctr[0].n = u + 1;\n  \
     }\n  \
     later l at q {\n    \
     get b = acct[0].bal;\n    \
     set acct[0].bal = b + u;\n    \
     out b;\n  \
     }\n\
     }\n";

/// Adds the account of each place.
fn push_accounts(text: &mut String, shards: u8) -> Result<(), AllocError>
    ensures { OnOk result (string_bytes text.new ≡ string_bytes text.old ++ flat_map account_line (range_with_len 0 shards)) }
{
    for place in 0..shards {
        write!(text, "init acct[{place},0].bal = 1000;\n")?;
    }
    Ok(())
}

fn push_pay(text: &mut String) -> Result<(), AllocError>
    ensures { OnOk result (string_bytes text.new ≡ string_bytes text.old ++ pay_lines) }
{
    text.push_str(PAY)
}

fn push_mark(text: &mut String) -> Result<(), AllocError>
    ensures { OnOk result (string_bytes text.new ≡ string_bytes text.old ++ mark_lines) }
{
    text.push_str(MARK)
}

/// Adds the whole workload.
#[tactic(auto, unfolding(crate::specs::WorkloadText::generated_workload))]
pub(crate) fn push_workload(text: &mut String, shards: u8) -> Result<(), AllocError>
    ensures { OnOk result (string_bytes text.new ≡ string_bytes text.old ++ generated_workload shards) }
{
    write!(text, "shards {shards};\n")?;
    text.push_str("table acct { bal }\n")?;
    text.push_str("table ctr { n }\n")?;
    push_accounts(text, shards)?;
    push_pay(text)?;
    push_mark(text)
}
