//! Lemmas in `proofs/` on runs of two ends of direct and of reliable mode, for `codec_runs`: phases
//! before an association stands, openings and acceptances among messages, the numbers of
//! invocations, what calls make, and what is heard. There is no code here.
#![tactic(auto)]
