//! Tests of servers and coordinators with messages that no honest node sends, of watermarks and of what waits, and of whole runs of
//! procedures, as tables. It gives nothing to use.
#![tactic(auto)]

#[cfg(test)]
mod coordinators;
#[cfg(test)]
mod datagrams;
#[cfg(test)]
mod holds;
#[cfg(test)]
mod servers;
#[cfg(test)]
mod whole_runs;
#[cfg(test)]
mod workloads;
