// Demand 3 of lexing: joining two queries by a newline joins their lexemes, in each reading. There is nothing to run: the statements stand in
// specs/, and their theorems in proofs/.
#![tactic(auto)]
