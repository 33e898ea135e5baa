//! Tests of the machine's streams, network, processes, disk and books, which no clause tells anything of. It gives nothing to use.
#![tactic(auto)]

#[cfg(test)]
mod children;
#[cfg(test)]
mod disks;
#[cfg(test)]
mod links;
#[cfg(test)]
mod same;
#[cfg(test)]
mod streams;
