// What holds over any sequence of calls: statements in specs/, their proofs in proofs/. There is no code here.

#![tactic(auto)]
