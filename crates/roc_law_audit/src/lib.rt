//! Logs of all nodes of one run are answered yes. No code stands here but [`laws`].
//!
//! `specs/LogsOfRuns.antt` says what the nodes of the world log in a run of `roc_law_world`, and which logs are those of a run (`AreLogsOfRun`): by the
//! events of the run, what it sent and what its history gained, without any core. A Stop is for a node and not for its core, and its line may stand
//! anywhere between. `specs/InTheWorld.antt` says when what logs tell is what a run did (`AreOfRun`). By [`laws`] such logs fold, to what the run did,
//! and whatever is judged of that is a yes. That running nodes write such logs is a law of `roc_law_nodes`. Nothing is said of logs that end before
//! their run does, or of runs in which a server stops and starts again or a view is submitted.
#![tactic(auto)]

pub mod laws;
