// Worked values of the definitions: specs/Values.antt.
#![tactic(auto)]
