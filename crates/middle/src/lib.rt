// The middle product of two slices of residues, an open call (01, Middle product), with the product places and the checks that other open calls on
// numbers share.
#![tactic(auto)]

ghost use Rattle.std.specs.Prelude.{◌≡◌, ◌<◌, ◌≤◌, length};
ghost use Rattle.maths.specs.Product.{middle_product_of};
ghost use Rattle.calls.specs.Outcome.{outcome};
ghost use Rattle.calls.specs.Checks.{all_of};
ghost use Rattle.middle.specs.Operand.{Operand};
ghost use Rattle.middle.specs.Calls.{middle_shape, middle_answer, middle_left};

use calls::{Answer, Refusal};

pub mod checks;
pub mod places;

// Whether the lengths of a middle product of `a` and `b` numbers with `d` results fit each other.
pub fn lengths_fit(a: usize, b: usize, d: usize) -> bool
    ensures { result ≡ all_of (middle_shape a b d) }
{
    if a < 1 {
        return false;
    }
    if d < 1 {
        return false;
    }
    if 4096 < a {
        return false;
    }
    if 4096 < b {
        return false;
    }
    if 4096 < d {
        return false;
    }
    if b != a + d - 1 {
        return false;
    }
    true
}

// Writes each place of the middle product into `out`.
pub fn fill(a: &[u32], b: &[u32], q: u32, out: &mut [u32])
    requires { Operand a.now × Operand b.now × (0 < length a.now) × (length out.old ≤ 4096) × (0 < q) }
    ensures { out.new ≡ middle_product_of q a.now b.now (length out.old) }
{
    for (i, place) in out.iter_mut().enumerate() {
        *place = places::product_place(a, b, a.len() - 1 + i, q);
    }
}

// The middle product of `a` and `b` modulo a set's q, with as many results as `out` has places.
pub fn middle_product(set: usize, a: &[u32], b: &[u32], out: &mut [u32]) -> Answer
    ensures answer { outcome result ≡ middle_answer set a.now b.now (length out.old) }
    ensures left { out.new ≡ middle_left set a.now b.now out.old }
{
    if sets::LAST < set {
        return Err(Refusal::NoSuchSet);
    }
    let p = sets::parameters_of(set);
    let q = p.q;
    if !lengths_fit(a.len(), b.len(), out.len()) {
        return Err(Refusal::Size);
    }
    checks::two_checked(a, b, q)?;
    fill(a, b, q, out);
    Ok(())
}
