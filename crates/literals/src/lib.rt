// What lexing and reading say of one string. There is nothing to run: the statements stand in specs/, and their theorems in proofs/.
#![tactic(auto)]
