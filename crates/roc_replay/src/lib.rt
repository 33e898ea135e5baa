//! A whole replay: a schedule in, the report of its run out. [`replay`] steps a world through what the lines ask for, and
//! writes the lines of each event in one piece after it, and the closing lines in one piece at the end. The world is of
//! one plan and 16 coordinators; or of two, of which the nodes may go over to the second while they run, and as many
//! coordinators as the caller says. The second then judges the lines of the schedule, and names what the report shows.
//!
//! The contract of [`replay`] cites `specs/Ended.antt`, which has what each end says, and `specs/Pieces.antt`, which has
//! what goes out in one write; `specs/Report.antt` has the lines
//! of a run, on `specs/Cells.antt`; `specs/BoundLine.antt` what the lines of a schedule ask for, `specs/Played.antt` how
//! they are played, and `specs/Readback.antt` what lines tell of themselves (`IsExplained`).
//!
//! The layers above may rely on this. If `replay` answers `Done`, the sink took the text of the report of the run of
//! exactly that schedule, and the report explains itself: its one `order` line is a serial witness of the history that
//! its own `submit` and `answer` lines show, each transaction that looks quiet has its answer, and if no line is
//! `pending`, the `row` lines are the cells that the serial order leaves; each id is submitted once and answered at
//! most once, and only stale messages are ignored. Its `drained` lines show which ids are of the second file, each id runs
//! by the program of its own, and none of the second stands in the `order` line before one of the first. Of any other
//! end the layers above may rely on its cause, and on what the sink took: nothing, or the text of whole lines of the
//! schedule, and if a write failed a front of the text that was due behind it. A schedule that asks only for what was
//! sent is played whole if no failure is counted and memory suffices.
//!
//! By [`laws`] the report of every run of accepted plans explains itself, whoever reads the text of a replay's report
//! as lines of a report reads its lines, what is played is a run, schedules with the same lines have one report, and a
//! schedule can be played exactly if it asks only for what was sent. `specs/Inner/` is of this crate alone.
#![tactic(auto)]

mod asked;
mod asking;
mod closing;
mod ended;
pub mod laws;
mod lines;
mod play;
mod schedule;

pub use asked::{BoundLine, Wanted};
pub use ended::{Ended, Summary};
pub use schedule::replay;
