// Operations in turn on one state as definitions: specs/History.antt.
#![tactic(auto)]
