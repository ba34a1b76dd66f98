// Theory only: published answers of the permutation and of the functions over it, computed from the definitions of `keccak` and `sponge`.
#![tactic(auto)]
