// Document 02's L12: nothing in an accepted query is unaccounted for. There is nothing to run: the statements stand in specs/, and their theorems in
// proofs/.
#![tactic(auto)]
