// Reading and planning undo each other: the definitions are in specs/, the theorems in proofs/.
#![tactic(auto)]
