// Every call that takes a plan refuses one that is not legal by the plan's own number, whatever else it is lent: 1 to
// 3, then 18 (document 02, (f)). No code: specs/Refused.antt states it of all calls, proofs/Refused.antt proves it. A
// request's call that takes a plan comes in here.
#![tactic(auto)]
