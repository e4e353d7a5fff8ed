// Document 02's L7: what is open at each place of a query, said of its lexemes alone, and which parentheses are pairs. There is nothing to run: the
// statements stand in specs/, and their theorems in proofs/.
#![tactic(auto)]
