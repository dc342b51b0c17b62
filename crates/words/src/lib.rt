// The steps of a round on a block in packed form, four words of 32 bits: all but the S-box.
#![tactic(auto)]

pub mod steps;
