//! Tests of servers and coordinators that go over to a grown workload with messages that no honest node sends, as tables: each reason to ignore or skip a message, and who is told
//! what. It gives nothing to use.
#![tactic(auto)]

#[cfg(test)]
mod coordinators;
#[cfg(test)]
mod holds;
#[cfg(test)]
mod messages;
#[cfg(test)]
mod servers;
