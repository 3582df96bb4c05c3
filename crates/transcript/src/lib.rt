// Sessions of lines: demand 3 of document 01 as the program `wall` has it, one theorem about every list of lines that a
// fresh session takes. No code: specs/SessionKept.antt states it, proofs/Sessions.antt proves it.
#![tactic(auto)]
