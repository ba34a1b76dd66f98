// One place of c2, the second part of a ciphertext, as the walks of both sealings finish it: on numbers (01, Sealing) and on bytes (003, algorithm 2, line 9).
#![tactic(auto)]

ghost use Rattle.std.specs.Prelude.{◌≡◌, List, ℕ, ◌+◌, ◌*◌, ◌%◌, ◌^◌, ◌<◌, length};
ghost use Rattle.maths.specs.Vector.{at};
ghost use Rattle.c2_place.specs.Walk.{Walked};

// Finishes place `j`: it holds the sum there plus `half` times the message bit, modulo q.
pub fn finish(c2: &mut [u32], j: usize, sum: u32, bit: u32, half: u32, q: u32)
    requires { (j < length c2.old) × (sum < q) × (bit < 2) × (half < q) × (q < 2 ^ 24) }
    ensures { (finished before : List ℕ) → at finished j ≡ (sum + half * bit) % q → Walked finished before j c2.old
        → Walked finished before (j + 1) c2.new }
{
    let shift = half * bit;
    c2[j] = residues::add(sum, shift, q);
}
