// Three XOR shares, masks and calls on them as definitions and laws: specs/, proofs/.
#![tactic(auto)]
