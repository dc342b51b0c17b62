// Opening as definitions: specs/Opener.antt, specs/Open.antt.
#![tactic(auto)]
