// Sealing on numbers (01, Sealing).
#![tactic(auto)]

ghost use Rattle.std.specs.Prelude.{◌≡◌, ◌≤◌, ◌+◌, ◌%◌, length};
ghost use Rattle.maths.specs.Vector.{tabulate, Below};
ghost use Rattle.calls.specs.Outcome.{outcome};
ghost use Rattle.calls.specs.Checks.{all_of};
ghost use Rattle.sets.specs.Rules.{Rules};
ghost use Rattle.numbers.specs.Operands.{Family, SealingOperands};
ghost use Rattle.numbers.specs.Scheme.{sum_of_products, first_part_of, second_part};
ghost use Rattle.numbers.specs.Calls.{sealing_shape, sealing_range, sealing_answer, first_part_left, second_part_left};
ghost use Rattle.numbers_sealing_parts.specs.Finished.{finished};

use calls::{Answer, Refusal};
use middle::checks;
use numbers::sums::sum_place;
use numbers::{counts, signed};
use sets::Parameters;

// Whether the lengths are the set's.
fn lengths_fit(p: Parameters, a: usize, b: usize, r: usize, m: usize, c1: usize, c2: usize) -> bool
    requires { Rules p }
    ensures { result ≡ all_of (sealing_shape p a b r m c1 c2) }
{
    if a != counts::product(p.t, p.n) {
        return false;
    }
    if b != sets::derived::error_count(p) {
        return false;
    }
    if r != sets::derived::multiplier_count(p) {
        return false;
    }
    if m != p.d {
        return false;
    }
    if c1 != p.n + p.k {
        return false;
    }
    if c2 != p.d {
        return false;
    }
    true
}

// Refused at the first number of `a`, then `b`, that is q or more, then at the first of `r` and the message that is out of range.
fn numbers_checked(p: Parameters, a: &[u32], b: &[u32], r: &[i32], m: &[u32]) -> Answer
    requires { Rules p × (length a.now + length b.now + length r.now + length m.now ≤ 65536) }
    ensures { outcome result ≡ sealing_range p a.now b.now r.now m.now }
{
    let q = p.q;
    checks::two_checked(a, b, q)?;
    numbers_sealing_parts::multipliers_and_message_checked(p, r, m, a.len() + b.len())
}

// Writes c1 from the residues `rs` of the multipliers.
fn fill_first(p: Parameters, rs: &[u32], a: &[u32], c1: &mut [u32])
    requires { Rules p × Family p.q (p.k + 1) p.t rs.now × Family p.q p.n p.t a.now × (length c1.old ≡ p.n + p.k) }
    ensures { c1.new
        ≡ tabulate (p.n + p.k) (λ j. sum_of_products p.t (p.k + 1) rs.now p.n a.now j % p.q) }
{
    let m = p.k + 1;
    let n = p.n;
    for (j, place) in c1.iter_mut().enumerate() {
        *place = sum_place(rs, m, a, n, j, p);
    }
}

// Writes c2 in one walk.
fn fill_second(p: Parameters, rs: &[u32], b: &[u32], m: &[u32], c2: &mut [u32])
    requires { Rules p × Family p.q (p.k + 1) p.t rs.now × Family p.q (p.d + p.k) p.t b.now
        × (length m.now ≡ p.d) × Below 2 m.now × (length c2.old ≡ p.d) }
    ensures { c2.new ≡ finished p rs.now b.now m.now }
{
    for j in 0..c2.len() {
        numbers_sealing_parts::finish_place(p, rs, b, m, j, c2);
    }
}

// Writes both parts, with a slice for the residues of the multipliers.
fn fill(
    p: Parameters,
    a: &[u32],
    b: &[u32],
    r: &[i32],
    m: &[u32],
    rs: &mut [u32],
    c1: &mut [u32],
    c2: &mut [u32],
)
    requires { Rules p × SealingOperands p a.now b.now r.now m.now × (length rs.old ≡ length r.now)
        × (length c1.old ≡ p.n + p.k) × (length c2.old ≡ p.d) }
    ensures { (c1.new ≡ first_part_of p a.now r.now)
        × (c2.new ≡ second_part p b.now r.now m.now) }
{
    let q = p.q;
    signed::residues_of(r, q, rs);
    fill_first(p, rs, a, c1);
    fill_second(p, rs, b, m, c2);
}

// The same with an array of its own for the residues.
fn fill_both(
    p: Parameters,
    a: &[u32],
    b: &[u32],
    r: &[i32],
    m: &[u32],
    c1: &mut [u32],
    c2: &mut [u32],
)
    requires { Rules p × SealingOperands p a.now b.now r.now m.now × (length c1.old ≡ p.n + p.k) × (length c2.old ≡ p.d) }
    ensures { (c1.new ≡ first_part_of p a.now r.now)
        × (c2.new ≡ second_part p b.now r.now m.now) }
{
    let count = r.len();
    let mut rs: [u32; 8192] = [0; 8192];
    fill(p, a, b, r, m, &mut rs[0..count], c1, c2);
}

// The parts c1 and c2 of a sealing of `message` under the key `b` of the public polynomials `a`, with the multipliers `r`.
pub fn sealing(
    set: usize,
    a: &[u32],
    b: &[u32],
    r: &[i32],
    message: &[u32],
    c1: &mut [u32],
    c2: &mut [u32],
) -> Answer
    ensures answer { outcome result
        ≡ sealing_answer set a.now b.now r.now message.now (length c1.old) (length c2.old) }
    ensures first { c1.new
        ≡ first_part_left set a.now b.now r.now message.now c1.old (length c2.old) }
    ensures second { c2.new
        ≡ second_part_left set a.now b.now r.now message.now (length c1.old) c2.old }
{
    if sets::LAST < set {
        return Err(Refusal::NoSuchSet);
    }
    let p = sets::parameters_of(set);
    if !lengths_fit(
        p,
        a.len(),
        b.len(),
        r.len(),
        message.len(),
        c1.len(),
        c2.len(),
    ) {
        return Err(Refusal::Length);
    }
    numbers_checked(p, a, b, r, message)?;
    fill_both(p, a, b, r, message, c1, c2);
    Ok(())
}
