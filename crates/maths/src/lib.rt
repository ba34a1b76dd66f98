// The mathematics that the contracts of the other crates cite: definitions in specs/, laws in proofs/. There is no code.
#![tactic(auto)]
