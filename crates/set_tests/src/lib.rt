//! Tests of sets of contexts, of their alterations between two ends, and of saved sets. They stand
//! in a crate of their own, since a crate with tests inside is proved twice. What is expected of a
//! step follows from X.216 3.4, X.226 8.2 and the limits of this project.
#![tactic(auto)]

#[cfg(test)]
mod alterations;
#[cfg(test)]
mod made;
#[cfg(test)]
mod saving;
