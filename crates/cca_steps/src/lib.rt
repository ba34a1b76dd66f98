// The three steps of the key exchange on bytes (003, section 2.3.2, algorithms 29 to 31), for slices whose lengths are the set's.
#![tactic(auto)]

pub mod decapsulation;
pub mod encapsulation;
pub mod keygen;
