// Document 01's worked examples of the codings, proved of the definitions: the table is in specs/, its proof in proofs/.
#![tactic(auto)]
