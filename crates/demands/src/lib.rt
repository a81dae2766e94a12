// No code: what the definitions of receiving and building add up to. The statements stand in specs/, the theorems in proofs/.
#![tactic(auto)]
