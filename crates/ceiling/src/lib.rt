// The ceiling of a set, which no size of noise exceeds (specs/Ceiling.antt; 01, The bench sheet; 02, No. 5).
#![tactic(auto)]

ghost use Rattle.std.specs.Prelude.{◌≡◌, ◌^◌, ◌≤◌};
ghost use Rattle.maths.specs.Sum.{sum};
ghost use Rattle.sets.specs.Derived.{multiplier_count_of, multiplier_bound_of};
ghost use Rattle.sets.specs.Rules.{Rules};
ghost use Rattle.ceiling.specs.Ceiling.{most_products_of, most_dropped_of, ceiling};

use sets::Parameters;

// 2 to the power of this many bits.
fn power(bits: u32) -> u32
    requires { bits ≤ 21 }
    ensures { result ≡ 2 ^ bits }
{
    1 << bits
}

// The sum of B/2 over every position: the first ndec1 have b1 bits, the others b2.
fn multiplier_sizes(p: Parameters) -> u64
    requires { Rules p }
    ensures { result ≡ sum (multiplier_count_of p) (multiplier_bound_of p) }
{
    let others = sets::derived::multiplier_count(p) - p.ndec1;
    p.ndec1 as u64 * power(p.b1) as u64 + others as u64 * power(p.b2) as u64
}

// The products' part of the ceiling.
fn most_products(p: Parameters) -> u64
    requires { Rules p }
    ensures { result ≡ most_products_of p }
{
    p.eta as u64 * multiplier_sizes(p)
}

// The largest size that packing can drop at one place.
fn most_dropped(p: Parameters) -> u64
    requires { Rules p }
    ensures { result ≡ most_dropped_of p }
{
    power(p.cmp) as u64 - 1
}

// The ceiling of a set.
pub fn ceiling(p: Parameters) -> u64
    requires { Rules p }
    ensures { result ≡ ceiling p }
{
    let products = most_products(p);
    let dropped = most_dropped(p);
    products + dropped
}
