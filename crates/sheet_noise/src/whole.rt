// Whole numbers with signs that residues stand for, in 64 bits, and the two parts of the noise at a place.
ghost use Rattle.std.specs.Prelude.{◌≡◌, ◌+◌, ◌*◌, ◌^◌, ◌≤◌, ◌<◌, nat_abs, ◌+ℤ◌, ◌*ℤ◌, length};
ghost use Rattle.maths.specs.Integer.{centre};
ghost use Rattle.sets.specs.Rules.{Rules, ByteRules};
ghost use Rattle.sets.specs.Derived.{half_modulus_of, multiplier_count_of, error_count_of};
ghost use Rattle.packing.specs.Dropped.{chop};
ghost use Rattle.sheet_noise.specs.Centred.{Residues, centred_correlation, centred_product, centred_dropped};

use sets::Parameters;

// The sum of two whole numbers.
pub fn plus(x: i64, y: i64) -> i64
    requires { (nat_abs x < 2 ^ 61) × (nat_abs y < 2 ^ 61) }
    ensures { result ≡ x +ℤ y }
{
    x + y
}

// The product of two small whole numbers.
fn times(x: i64, y: i64) -> i64
    requires { (nat_abs x < 2 ^ 23) × (nat_abs y < 2 ^ 23) }
    ensures { result ≡ x *ℤ y }
{
    x * y
}

// The whole number from −half to half that a residue stands for.
fn centred(w: u32, half: u32) -> i64
    requires { (w < 2 * half + 1) × (half < 2 ^ 23) }
    ensures { result ≡ centre half w }
{
    if w <= half {
        w as i64
    } else {
        0 - ((2 * half + 1 - w) as i64)
    }
}

// One product of a multiplier and an error.
fn term(multiplier: u32, error: u32, half: u32) -> i64
    requires { (multiplier < 2 * half + 1) × (error < 2 * half + 1) × (half < 2 ^ 23) }
    ensures { result ≡ centre half multiplier *ℤ centre half error }
{
    times(centred(multiplier, half), centred(error, half))
}

// The sum of the products of `count` multipliers from `first` on and the errors from `place` on.
fn correlation_at(
    multipliers: &[u32],
    first: usize,
    errors: &[u32],
    place: usize,
    count: usize,
    half: u32,
) -> i64
    requires { (first + count ≤ length multipliers.now) × (place + count ≤ length errors.now) × (count ≤ 1024) × (length multipliers.now ≤ 8192)
        × (length errors.now ≤ 10240) × (half < 2 ^ 23) × Residues (2 * half + 1) multipliers.now × Residues (2 * half + 1) errors.now }
    ensures { result ≡ centred_correlation half count multipliers.now first errors.now place }
{
    let mut sum: i64 = 0;
    for l in 0..count {
        let product = term(multipliers[first + l], errors[place + l], half);
        sum = plus(sum, product);
    }
    sum
}

// The products' part of the noise at a place.
pub fn product_noise(p: Parameters, half: u32, multipliers: &[u32], errors: &[u32], j: usize) -> i64
    requires { Rules p × ByteRules p × (half ≡ half_modulus_of p) × (length multipliers.now ≡ multiplier_count_of p) × (length errors.now ≡ error_count_of p)
        × Residues p.q multipliers.now × Residues p.q errors.now × (j < p.d) }
    ensures { result ≡ centred_product p multipliers.now errors.now j }
{
    let row = p.k + 1;
    let long = p.d + p.k;
    let mut sum: i64 = 0;
    for i in 0..p.t {
        let part = correlation_at(multipliers, row * i, errors, long * i + j, row, half);
        sum = plus(sum, part);
    }
    sum
}

// A number with its low bits cleared.
fn chopped(x: u32, bits: u32) -> u32
    requires { bits ≤ 21 }
    ensures { result ≡ chop bits x }
{
    let unit: u32 = 1 << bits;
    x - x % unit
}

// The part of the bits dropped, at a place whose number before packing is given.
pub fn dropped_noise(p: Parameters, half: u32, before: u32) -> i64
    requires { Rules p × (half ≡ half_modulus_of p) × (before < p.q) }
    ensures { result ≡ centred_dropped p before }
{
    let recovered = chopped(before, p.cmp);
    centred(residues::subtract(recovered, before, p.q), half)
}
