// Arithmetic modulo any q below 2^24: the one place where a number is reduced, and the rounding of a residue to a bit.
#![tactic(auto)]

ghost use Rattle.std.specs.Prelude.{◌≡◌, true, ◌↔◌, ◌+◌, ◌-◌, ◌*◌, ◌/◌, ◌%◌, ◌^◌, ◌≤◌, ◌<◌, pos, ◌+ℤ◌, nat_abs};
ghost use Rattle.maths.specs.Integer.{residue};
ghost use Rattle.maths.specs.Rounding.{threshold_bit_of};

// The remainder of a number below 2 · q. Its quotient, 0 or 1, is what x + (2^31 − q) carries to 2^31: in its place, a comparison would become a
// jump in some loops, whose time tells x.
pub fn reduce_once(x: u32, q: u32) -> u32
    requires { (x < 2 * q) × (q < 2 ^ 24) }
    ensures { result ≡ x % q }
{
    x - (x + (2147483648 - q)) / 2147483648 * q
}

// The sum of two residues.
pub fn add(a: u32, b: u32, q: u32) -> u32
    requires { (a < q) × (b < q) × (q < 2 ^ 24) }
    ensures { result ≡ (a + b) % q }
{
    reduce_once(a + b, q)
}

// The difference of two residues.
pub fn subtract(a: u32, b: u32, q: u32) -> u32
    requires { (a < q) × (b < q) × (q < 2 ^ 24) }
    ensures { result ≡ (a + (q - b)) % q }
{
    reduce_once(a + (q - b), q)
}

// The reciprocal of q, scaled by 2^48: a division of public numbers alone.
fn reciprocal(q: u32) -> u64
    requires { 0 < q }
    ensures { result ≡ 2 ^ 48 / q }
{
    281474976710656 / (q as u64)
}

// The quotient of x by q, or up to 2 less; the divisions by 2^16 and 2^32 are shifts.
fn quotient_estimate(x: u64, q: u32) -> u64
    requires { (x < 2 ^ 48) × (2 ^ 16 ≤ q) }
    ensures { (result * q ≤ x) × (x < (result + 3) * q) }
{
    x / 65536 * reciprocal(q) / 4294967296
}

// x less a multiple of q.
fn partial_remainder(x: u64, q: u32) -> u32
    requires { (x < 2 ^ 48) × (2 ^ 16 ≤ q) × (q < 2 ^ 23) }
    ensures { (result % q ≡ x % q) × (result < 3 * q) }
{
    (x - quotient_estimate(x, q) * (q as u64)) as u32
}

// The exact quotient of an x below 3 · q. In its place, subtractions of q after comparisons would become jumps in some loops, whose time tells x.
fn small_quotient(x: u32, q: u32) -> u32
    requires { (x < 3 * q) × (2 ^ 16 ≤ q) × (q < 2 ^ 23) }
    ensures { result ≡ x / q }
{
    ((x as u64) * (reciprocal(q) + 1) / 281474976710656) as u32
}

// The remainder of a number below 2^48, in a time that depends on q alone.
fn short_remainder(x: u64, q: u32) -> u32
    requires { (x < 2 ^ 48) × (2 ^ 16 ≤ q) × (q < 2 ^ 23) }
    ensures { result ≡ x % q }
{
    let partial = partial_remainder(x, q);
    partial - small_quotient(partial, q) * q
}

// The remainder of any number of 64 bits, in a time that depends on q alone: its upper 41 bits are replaced by less than 2^25.
fn long_remainder(x: u64, q: u32) -> u32
    requires { (2 ^ 16 ≤ q) × (q < 2 ^ 23) }
    ensures { result ≡ x % q }
{
    let upper = partial_remainder(x / 8388608, q) as u64;
    short_remainder(upper * 8388608 + x % 8388608, q)
}

// The remainder by a division, whose time may depend on x: for set 0 and for any q that is no set's.
fn divided_remainder(x: u64, q: u32) -> u32
    requires { 0 < q }
    ensures { result ≡ x % q }
{
    (x % (q as u64)) as u32
}

// Whether remainders by q are made by multiplication, whose proofs hold from 2^16 to below 2^23.
fn by_multiplication(q: u32) -> bool
    ensures { result ≡ true ↔ (2 ^ 16 ≤ q) × (q < 2 ^ 23) }
{
    65536 <= q && q < 8388608
}

// The remainder of a number of 64 bits. The q of sets 1 to 12 are between 2^16 and 2^23: there the time depends on q alone, which is public.
pub fn reduce(x: u64, q: u32) -> u32
    requires { 0 < q }
    ensures { result ≡ x % q }
{
    if by_multiplication(q) {
        long_remainder(x, q)
    } else {
        divided_remainder(x, q)
    }
}

// The same for a number below 2^48, as a product of two residues is, in fewer steps.
fn reduce_product(x: u64, q: u32) -> u32
    requires { (x < 2 ^ 48) × (0 < q) }
    ensures { result ≡ x % q }
{
    if by_multiplication(q) {
        short_remainder(x, q)
    } else {
        divided_remainder(x, q)
    }
}

// The reciprocal of q, rounded up: worked out once for many numbers that `reduce_scaled` takes.
pub fn scale(q: u32) -> u64
    requires { 0 < q }
    ensures { result ≡ 2 ^ 48 / q + 1 }
{
    reciprocal(q) + 1
}

// The remainder of a number below 2^24, whose quotient by the scale is exact.
fn scaled_remainder(x: u32, q: u32, scale: u64) -> u32
    requires { (x < 2 ^ 24) × (2 ^ 16 ≤ q) × (q < 2 ^ 23) × (scale ≡ 2 ^ 48 / q + 1) }
    ensures { result ≡ x % q }
{
    x - ((x as u64) * scale / 281474976710656) as u32 * q
}

// The same as `reduce` for a number below 2^24, with the scale of q.
pub fn reduce_scaled(x: u32, q: u32, scale: u64) -> u32
    requires { (x < 2 ^ 24) × (0 < q) × (scale ≡ 2 ^ 48 / q + 1) }
    ensures { result ≡ x % q }
{
    if by_multiplication(q) {
        scaled_remainder(x, q, scale)
    } else {
        divided_remainder(x as u64, q)
    }
}

// The whole product of two numbers of 32 bits, for sums that are reduced once.
pub fn product(a: u32, b: u32) -> u64
    ensures { result ≡ a * b }
{
    (a as u64) * (b as u64)
}

// The product of two residues.
pub fn multiply(a: u32, b: u32, q: u32) -> u32
    requires { (a < q) × (b < q) × (q < 2 ^ 24) }
    ensures { result ≡ a * b % q }
{
    reduce_product(product(a, b), q)
}

// The place that comes `by` places after another in a table of `count` places, whose last is followed by its first.
pub fn advance(place: usize, by: usize, count: usize) -> usize
    requires { (place < count) × (by < count) × (count < 2 ^ 32) }
    ensures { (result ≡ (place + by) % count) × (result < count) }
{
    let next = place + by;
    if next >= count { next - count } else { next }
}

// A small number with a sign, raised by 2^24 so that it has none.
fn raised(z: i32) -> u32
    requires { nat_abs z < 2 ^ 24 }
    ensures { pos result ≡ z +ℤ pos (2 ^ 24) }
{
    (z + 16777216) as u32
}

// The residue of a whole number with a sign: that of z + 2^24 · q, which is never negative, so that nothing is chosen by the sign.
pub fn of_signed(z: i32, q: u32) -> u32
    requires { (0 < q) × (q < 2 ^ 24) × (nat_abs z < 2 ^ 24) }
    ensures { result ≡ residue q z }
{
    reduce_product(raised(z) as u64 + (q as u64 - 1) * 16777216, q)
}

// The same for a number of less size than q, in fewer steps: that of z + q, which is below 2 · q and never negative.
pub fn of_small(z: i32, q: u32) -> u32
    requires { (nat_abs z < q) × (q < 2 ^ 24) }
    ensures { result ≡ residue q z }
{
    reduce_once(raised(z) - (16777216 - q), q)
}

// 003's Round for an even h: 1 from h / 2 to 3h / 2, else 0.
pub fn threshold_bit(h: u32, w: u32) -> u32
    requires { (h < 2 ^ 24) × (w < 2 ^ 24) }
    ensures { result ≡ threshold_bit_of h w }
{
    if 2 * w < h {
        return 0;
    }
    if 3 * h < 2 * w {
        return 0;
    }
    1
}
