// Plain sealing as definitions: specs/Plain.antt, specs/Entry.antt.
#![tactic(auto)]
