//! Tests that a call of a server or a coordinator that finds no memory may be made again: that the same call then gives what it gives
//! where memory suffices. A plain run refuses nothing; `benches/growth` refuses each allocation in turn. It gives nothing to use.
#![tactic(auto)]

#[cfg(test)]
mod again;
#[cfg(test)]
mod cases;
#[cfg(test)]
mod first;
#[cfg(test)]
mod holds;
#[cfg(test)]
mod run;
