// Shared sealing by its numbered calls, as definitions: specs/.
#![tactic(auto)]
