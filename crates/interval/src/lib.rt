// Chronons, intervals, tuples and rows: what document 01 says under 'Minutes, labels, tuples' but for labels, which the
// crate `label` has, and the rule for rows, which is the join's.
//
// Every function takes any 64-bit words, and none has a `requires`. The definitions that the promises cite are in
// specs/: Time, Tuple. Their laws and the theorems about them are in proofs/: Overlap, Tuples.
#![tactic(auto)]

pub mod time;
pub mod tuple;
