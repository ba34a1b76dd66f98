// For each set an input at which the smallest reduction step gives q or more: theory, with nothing to run.
#![tactic(auto)]
