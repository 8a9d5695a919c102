//! Tests of the session machine, over its public calls: two machines that exchange their words,
//! what is refused, what is passed over and what is out of place. What is expected of a step
//! follows from X.225, in this project's profile, and is worked out by hand. A number in front of a
//! comment is that of the section of X.225 that has the rule; 7 has one for each unit, in the order
//! of 8.3: RESYNCHRONIZE has 7.24 and 8.3.24. Where a comment says 'profile', the rule is this
//! project's own (`docs/DECISIONS.md`, and `Requests`, `Takings`, `Reading` and `Units` of
//! `session_subset`), and not taken from X.225.
#![tactic(auto)]

#[cfg(test)]
mod direct;
#[cfg(test)]
mod exchange;
#[cfg(test)]
mod opening;
#[cfg(test)]
mod reliable;
