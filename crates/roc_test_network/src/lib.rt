//! Tests of running nodes, over links, sinks and spawners in memory. It gives nothing to use.
#![tactic(auto)]

#[cfg(test)]
mod coordinators;
#[cfg(test)]
mod datagrams;
#[cfg(test)]
mod families;
#[cfg(test)]
mod keeping;
#[cfg(test)]
mod local;
#[cfg(test)]
mod logging;
#[cfg(test)]
mod outside;
#[cfg(test)]
mod same;
#[cfg(test)]
mod servers;
#[cfg(test)]
mod serving;
#[cfg(test)]
mod submitting;
#[cfg(test)]
mod workloads;
