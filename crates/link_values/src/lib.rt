// Worked values of links in their bytes: specs/Links.antt.
#![tactic(auto)]
