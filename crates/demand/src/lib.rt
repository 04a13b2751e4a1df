// What a whole identification does with the bench module: definitions in specs/, theorems in proofs/.
#![tactic(auto)]
