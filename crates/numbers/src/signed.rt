// Whole numbers with a sign: their size, multipliers in range, and their residues (01, Key and Sealing).
ghost use Rattle.std.specs.Prelude.{◌≡◌, ℕ, ◌+◌, ◌<◌, ◌≤◌, ◌^◌, leb, nat_abs, pos, length, get_or};
ghost use Rattle.calls.specs.Outcome.{outcome, accepted};
ghost use Rattle.calls.specs.Checks.{passing, refuse_first};
ghost use Rattle.sets.specs.Rules.{Rules};
ghost use Rattle.numbers.specs.Scheme as scheme;
ghost use Rattle.sets.specs.Derived.{multiplier_bound_of};
ghost use Rattle.numbers.specs.Calls.{is_multiplier_of};

use calls::Answer;
use sets::Parameters;

// Whether `z` has size at most `limit`.
pub fn size_within(z: i32, limit: u32) -> bool
    requires { limit < 2 ^ 24 }
    ensures { result ≡ leb (nat_abs z) limit }
{
    let bound = limit as i32;
    if bound < z {
        return false;
    }
    if z < 0 - bound {
        return false;
    }
    true
}

// The largest size of a multiplier at a position.
fn multiplier_bound(p: Parameters, position: usize) -> u32
    requires { Rules p }
    ensures { result ≡ multiplier_bound_of p position }
{
    1 << sets::derived::multiplier_bits(p, position)
}

// Whether `z` is a multiplier at a position.
fn is_multiplier(p: Parameters, position: usize, z: i32) -> bool
    requires { Rules p }
    ensures { result ≡ is_multiplier_of p position z }
{
    if size_within(z, 0) {
        return false;
    }
    size_within(z, multiplier_bound(p, position))
}

// The index of the first number that is no multiplier at its position, or the length where there is none, as `passing` counts.
fn first_non_multiplier(p: Parameters, rs: &[i32]) -> usize
    requires { Rules p }
    ensures { result ≡ passing (is_multiplier_of p) 0 rs.now }
{
    for (i, r) in rs.iter().enumerate() {
        if !is_multiplier(p, i, *r) {
            return i;
        }
    }
    rs.len()
}

// Refused at the first number that is no multiplier at its position, its place counted from `offset`.
pub fn multipliers_checked(p: Parameters, rs: &[i32], offset: usize) -> Answer
    requires { Rules p × (offset + length rs.now ≤ 65536) }
    ensures { outcome result ≡ refuse_first (is_multiplier_of p) 0 offset rs.now accepted }
{
    calls::first_checked(first_non_multiplier(p, rs), rs.len(), offset)
}

// Writes the residue of each number.
pub fn residues_of(zs: &[i32], q: u32, out: &mut [u32])
    requires { (0 < q) × (q < 2 ^ 24) × (length out.old ≡ length zs.now)
        × ((k : ℕ) → k < length zs.now → nat_abs (get_or zs.now k (pos 0)) < 2 ^ 24) }
    ensures { out.new ≡ scheme.residues q zs.now }
{
    for (i, residue) in out.iter_mut().enumerate() {
        *residue = residues::of_signed(zs[i], q);
    }
}
