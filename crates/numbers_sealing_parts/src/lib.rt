// Parts of the sealing on numbers (01, Sealing): the check of multipliers and message, and one place of c2.
#![tactic(auto)]

ghost use Rattle.std.specs.Prelude.{◌≡◌, List, ℕ, ◌<◌, ◌≤◌, ◌+◌, length};
ghost use Rattle.maths.specs.Vector.{at};
ghost use Rattle.calls.specs.Outcome.{outcome};
ghost use Rattle.sets.specs.Rules.{Rules};
ghost use Rattle.numbers.specs.Operands.{Family};
ghost use Rattle.numbers.specs.Calls.{multipliers_and_message};
ghost use Rattle.c2_place.specs.Walk.{Walked};
ghost use Rattle.numbers_sealing_parts.specs.Finished.{finished};

use calls::Answer;
use middle::checks;
use numbers::signed;
use numbers::sums::sum_place;
use sets::Parameters;

// Refused at the first number of `r` that is no multiplier, then at the first message number that is no bit, places counted from `offset`.
pub fn multipliers_and_message_checked(p: Parameters, r: &[i32], m: &[u32], offset: usize) -> Answer
    requires { Rules p × (offset + length r.now + length m.now ≤ 65536) }
    ensures { outcome result ≡ multipliers_and_message p offset r.now m.now }
{
    signed::multipliers_checked(p, r, offset)?;
    checks::one_checked(m, 2, offset + r.len())
}

// Finishes place `j` of c2: the sum of the middle products there, and h times the message bit.
pub fn finish_place(p: Parameters, rs: &[u32], b: &[u32], m: &[u32], j: usize, c2: &mut [u32])
    requires { Rules p × Family p.q (p.k + 1) p.t rs.now × Family p.q (p.d + p.k) p.t b.now
        × (j < p.d) × (j < length m.now) × (at m.now j < 2) × (length c2.old ≡ p.d) }
    ensures { (before : List ℕ) → Walked (finished p rs.now b.now m.now) before j c2.old
        → Walked (finished p rs.now b.now m.now) before (j + 1) c2.new }
{
    let h = sets::derived::half_modulus(p);
    let sum = sum_place(rs, p.k + 1, b, p.d + p.k, p.k + j, p);
    c2_place::finish(c2, j, sum, m[j], h, p.q);
}
