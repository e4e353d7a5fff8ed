// Document 01's values marked P. There is nothing to run: the table stands in specs/, and its theorem in proofs/.
#![tactic(auto)]
