// A run of shared calls and its lanes, as definitions: specs/.
#![tactic(auto)]
