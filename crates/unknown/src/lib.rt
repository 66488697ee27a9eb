// Theorems over several crates. There is no code here: they stand in proofs/.
#![tactic(auto)]
