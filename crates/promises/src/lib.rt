// What is promised, on one page. There is no code here: the promises stand in specs/Promises.antt, their proofs in proofs/.
#![tactic(auto)]
