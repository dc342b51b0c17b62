// The library's names for proofs: proofs/Lib.antt.
#![tactic(auto)]
