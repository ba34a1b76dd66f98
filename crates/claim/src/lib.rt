// Theory only: demand 3 for every set (01, What demand 3 speaks of); the functions are those of `numbers`, `encryption` and `exchange`.
#![tactic(auto)]
