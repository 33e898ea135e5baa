//! Why groups may run apart from one another: a procedure's groups, run in turn with nothing else between, do what its
//! pieces do in program order (`docs/PROTOCOL.md`, "Groups in turn"). No code stands here.
//!
//! Two pieces of different groups that change places touch nothing of one another: neither uses a name that the other
//! binds, and neither accesses a column that the other writes. So the cells and the reply are those of the whole run,
//! of which `specs/Run.antt` of `roc_whole` speaks. The law is [`laws::groups_in_turn_are_the_whole_run`], of every
//! accepted plan and from whatever store they begin; `specs/GroupsRun.antt` says what it is for groups to run in turn.
#![tactic(auto)]

pub mod laws;
