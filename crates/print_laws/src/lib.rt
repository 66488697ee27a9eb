// Theorems on the printing program's text. There is no code here: they stand in proofs/.
#![tactic(auto)]
