//! Tests of journals over disks in memory, with calls that fail or stop where told. It gives nothing to use.
#![tactic(auto)]

#[cfg(test)]
mod appends;
#[cfg(test)]
mod disks;
#[cfg(test)]
mod reads;
#[cfg(test)]
mod same;

#[cfg(test)]
const TAG: [u8; 8] = [1, 2, 3, 4, 5, 6, 7, 8];

#[cfg(test)]
const EMPTY: &[u8] = b"RCJ1\x01\x02\x03\x04\x05\x06\x07\x08\x00";
/// A journal of one record, a stop of coordinator 0.
#[cfg(test)]
const ONE: &[u8] =
    b"RCJ1\x01\x02\x03\x04\x05\x06\x07\x08\x01\x00\x00\x00\x11RCO1\x02\x07\x01\x02\x03\x04\x05\x06\x07\x08\x01\x00\x00\x00";
