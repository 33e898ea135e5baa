//! The text of the generated schedule.
ghost use Rattle.std.specs.Prelude.{◌≡◌, ◌<◌, ◌*◌, ◌++◌, OnOk};
ghost use Rattle.std.specs.List.{flat_map};
ghost use Rattle.std.specs.String.{string_bytes};
ghost use Rattle.roc_sched.specs.declared.line.Act.TheVariants.{Any};
ghost use Rattle.roc_generate.specs.Draws.{next_state, draw, state_after};
ghost use Rattle.roc_generate.specs.Drawn.{drawn_choices, drawn_call, drawn_calls};
ghost use Rattle.roc_generate.specs.ScheduleText.{act_line, generated_schedule};

use crate::draws::Draws;
use std::alloc::AllocError;

/// A choice draws one of so many numbers; a replay takes it modulo the messages that are left.
const PLACES: u64 = 65_536;

/// Adds the choice of a message.
fn push_choice(text: &mut String, draws: &mut Draws) -> Result<(), AllocError>
    ensures text { OnOk result (string_bytes text.new ≡ string_bytes text.old ++ act_line (Any (draw draws.old.state 65536))) }
    ensures state { draws.new.state ≡ next_state draws.old.state }
{
    let place = draws.draw(PLACES);
    write!(text, "any {place}\n")
}

/// Adds so many choices.
fn push_choices(text: &mut String, draws: &mut Draws, count: u32) -> Result<(), AllocError>
    ensures text { OnOk result (string_bytes text.new ≡ string_bytes text.old ++ flat_map act_line (drawn_choices count draws.old.state)) }
    ensures state { OnOk result (draws.new.state ≡ state_after count draws.old.state) }
{
    for _ in 0..count {
        push_choice(text, draws)?;
    }
    Ok(())
}

/// Adds the submission of a number.
fn push_call(
    text: &mut String,
    draws: &mut Draws,
    shards: u8,
    number: u16,
) -> Result<(), AllocError>
    requires { 0 < shards }
    ensures text { OnOk result (string_bytes text.new ≡ string_bytes text.old ++ act_line (drawn_call shards number draws.old.state)) }
    ensures state { draws.new.state ≡ state_after 4 draws.old.state }
{
    let coord = number % 16;
    let is_pay = draws.draw(2) == 0;
    let a = draws.draw(u64::from(shards));
    let b = draws.draw(u64::from(shards));
    let m = draws.draw(100);
    if is_pay {
        write!(text, "submit {coord} pay {a} {b} {m}\n")
    } else {
        write!(text, "submit {coord} mark {a} {b}\n")
    }
}

/// Adds so many submissions, with four choices behind each.
fn push_calls(text: &mut String, draws: &mut Draws, shards: u8, txns: u16) -> Result<(), AllocError>
    requires { 0 < shards }
    ensures text { OnOk result (string_bytes text.new ≡ string_bytes text.old ++ flat_map act_line (drawn_calls shards 0 txns draws.old.state)) }
    ensures state { OnOk result (draws.new.state ≡ state_after (8 * txns) draws.old.state) }
{
    for number in 0..txns {
        push_call(text, draws, shards, number)?;
        push_choices(text, draws, 4)?;
    }
    Ok(())
}

/// Adds the whole schedule.
#[tactic(auto, unfolding(crate::specs::ScheduleText::generated_schedule, crate::specs::Drawn::drawn_acts))]
pub(crate) fn push_schedule(
    text: &mut String,
    seed: u64,
    shards: u8,
    txns: u16,
) -> Result<(), AllocError>
    requires { 0 < shards }
    ensures { OnOk result (string_bytes text.new ≡ string_bytes text.old ++ generated_schedule seed shards txns) }
{
    let mut draws = Draws { state: seed };
    push_calls(text, &mut draws, shards, txns)?;
    push_choices(text, &mut draws, 16 * u32::from(txns))
}
