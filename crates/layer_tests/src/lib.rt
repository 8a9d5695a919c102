//! Tests of the codecs of BER and of the packed syntax, of packets and of session units, over their
//! public calls: worked rows, limits, and each public call once with ample memory. They stand in a
//! crate of their own, since a crate with tests inside is proved twice.
#![tactic(auto)]

#[cfg(test)]
mod ber;
#[cfg(test)]
mod ber_written;
#[cfg(test)]
mod comparing;
#[cfg(test)]
mod packed;
#[cfg(test)]
mod packets;
#[cfg(test)]
mod session_units;
#[cfg(test)]
mod sets_of;
#[cfg(test)]
mod tables;
