#![tactic(auto)]

// Laws of plain lists; no code. The definitions are in specs/, their laws in proofs/.
