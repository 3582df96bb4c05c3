// On a wall that is kept current the answers to a screenful of questions count the machine's rows: a theorem, from
// demand 3 and the promises of the calls. No code: specs/Answers.antt states it, proofs/Answers.antt proves it.
#![tactic(auto)]
