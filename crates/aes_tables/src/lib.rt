// What AES-256 is made of (FIPS 197): words as numbers of 32 bits, the first byte least significant, the substitution table and the round table.
#![tactic(auto)]

pub mod tables;
pub mod word;
