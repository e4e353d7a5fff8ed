// A call of `lexer`, and what its promise says of it, for the theorems that speak of calls. There is nothing to run: the statements stand in specs/, and
// their theorems in proofs/.
#![tactic(auto)]
