// Values, by the words of whatever protocol. There is no code here: definitions stand in specs/, theorems in proofs/.
#![tactic(auto)]
