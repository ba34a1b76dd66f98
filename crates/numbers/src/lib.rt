// What the calls on numbers share (01, Arithmetic): multipliers in range, residues of whole numbers, sums of products.
// The calls are `numbers_key::key`, `numbers_sealing::sealing` and `numbers_reading::reading`.
#![tactic(auto)]

pub mod counts;
pub mod signed;
pub mod sums;
