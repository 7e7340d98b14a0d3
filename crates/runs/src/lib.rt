// Demands 2 and 3 over runs of calls: statements in specs/, their proofs in proofs/. No code.
#![tactic(auto)]
