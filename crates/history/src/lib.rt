// Lists of calls: demand 3 of document 01, one theorem about every list of inserts, deletes, sweeps and repartitions on
// a freshly opened wall; and what an insert or a delete is answered after such a list, by what the wall holds. No code:
// specs/KeptCurrent.antt and specs/Answering.antt state it, proofs/Current.antt and proofs/Answered.antt prove it.
#![tactic(auto)]
