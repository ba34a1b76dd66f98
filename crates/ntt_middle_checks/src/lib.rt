// What the transformed middle product does before any transform: the checks of the set and of the lengths (01, How each call answers), and the reversed factor.
#![tactic(auto)]

ghost use Rattle.std.specs.Prelude.{◌≡◌, ◌-◌, ◌≤◌, length};
ghost use Rattle.maths.specs.Vector.{at, tabulate};
ghost use Rattle.calls.specs.Outcome.{outcome, accepted};
ghost use Rattle.calls.specs.Checks.{all_of};
ghost use Rattle.calls.specs.Region.{over};
ghost use Rattle.sets.specs.Table.{set_of};
ghost use Rattle.ntt_middle_checks.specs.Checks.{transformed_shape, lengths_checked_of};

use calls::{Answer, Refusal};

// Whether the lengths of a middle product of `a` and `b` numbers with `d` results fit each other, and the work slice has its size.
fn lengths_fit(size: usize, a: usize, b: usize, d: usize, work: usize) -> bool
    ensures { result ≡ all_of (transformed_shape size a b d work) }
{
    if work != size {
        return false;
    }
    middle::lengths_fit(a, b, d)
}

// Refused with 1 where there is no such set, with 6 where a length does not fit, with 7 where `b` is longer than the largest transform, whose size is
// handed over.
pub fn lengths_checked(set: usize, size: usize, a: usize, b: usize, d: usize, work: usize) -> Answer
    requires { size ≡ (set_of set).d3 }
    ensures { outcome result ≡ lengths_checked_of set a b d work accepted }
{
    if sets::LAST < set {
        return Err(Refusal::NoSuchSet);
    }
    if !lengths_fit(size, a, b, d, work) {
        return Err(Refusal::Size);
    }
    if size < b {
        return Err(Refusal::AboveTransform);
    }
    Ok(())
}

// Writes the numbers of `a`, last one first, to the front of `x`.
pub fn load_reversed(x: &mut [u32], a: &[u32])
    requires { length a.now ≤ length x.old }
    ensures { x.new
        ≡ over x.old 0 (tabulate (length a.now) (λ j. at a.now (length a.now - 1 - j))) }
{
    let front = &mut x[0..a.len()];
    calls::copy_in(front, 0, a);
    front.reverse();
}
