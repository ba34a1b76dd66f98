// Products modulo an odd q by Montgomery's reduction with 2^32 (003 section 3.4.2): no division by q, and what comes out is below 2 · q.
#![tactic(auto)]

ghost use Rattle.std.specs.Prelude.{◌≡◌, ◌+◌, ◌*◌, ◌%◌, ◌^◌, ◌<◌};
ghost use Rattle.montgomery.specs.Scaled.{unscale, newton_step_of, lazy, lazy_long, Odd, Modulus};

// An odd modulus below 2^24, and its negated inverse modulo 2^32: what numbers are reduced by.
#[derive(Clone, Copy)]
pub struct Reducer {
    pub q: u32,
    pub k: u32,
    pub ghost modulus: { Modulus q k },
}

// One step of Newton's method for the negated inverse of q.
fn newton_step(q: u32, b: u32) -> u32
    ensures { result ≡ newton_step_of q b }
{
    let qb = (q as u64) * (b as u64) % 4294967296;
    ((b as u64) * ((qb + 2) % 4294967296) % 4294967296) as u32
}

// The negated inverse of q modulo 2^32: each step doubles the bits that are right, and one bit of 1 is.
pub fn negated_inverse(q: u32) -> u32
    requires { Odd q }
    ensures { Modulus q result }
{
    let two_bits = newton_step(q, 1);
    let four_bits = newton_step(q, two_bits);
    let eight_bits = newton_step(q, four_bits);
    let sixteen_bits = newton_step(q, eight_bits);
    newton_step(q, sixteen_bits)
}

impl Reducer {
    // An odd modulus with its negated inverse.
    pub fn new(q: u32) -> Self
        requires { Odd q }
        ensures { result.q ≡ q }
    {
        Reducer {
            q,
            k: negated_inverse(q),
        }
    }
}

// The smallest reduction step, 003's algorithm 43: x divided by 2^32 modulo q, since x + m · q is a multiple of 2^32.
// What it gives is below 2 · q, and may be q or more. The remainder of q by 2^31, which is q, tells the compiler that one multiplication of 32 bits does.
pub fn step(x: u64, reducer: Reducer) -> u32
    requires { x < reducer.q * 2 ^ 32 }
    ensures { (result % reducer.q ≡ unscale reducer.q x) × (result < 2 * reducer.q) × (result ≡ lazy reducer.q x) }
{
    let m = x % 4294967296 * (reducer.k as u64) % 4294967296;
    ((x + m * ((reducer.q % 2147483648) as u64)) / 4294967296) as u32
}

// The whole product of a number and a residue.
pub fn whole_product(a: u32, w: u32) -> u64
    requires { w < 2 ^ 31 }
    ensures { result ≡ a * w }
{
    (a as u64) * ((w % 2147483648) as u64)
}

// The product of any number of 32 bits and the number that the residue `w` is the scaled form of.
pub fn product(a: u32, w: u32, reducer: Reducer) -> u32
    requires { w < reducer.q }
    ensures { (result % reducer.q ≡ a * unscale reducer.q w % reducer.q) × (result < 2 * reducer.q) × (result ≡ lazy reducer.q (a * w)) }
{
    step(whole_product(a, w), reducer)
}

// Any number of 64 bits divided by 2^32 modulo q, in two steps: a product with `s`, the remainder of 2^64, keeps the place of the upper 32 bits.
pub fn long_step(x: u64, s: u32, reducer: Reducer) -> u32
    requires { s ≡ 2 ^ 64 % reducer.q }
    ensures { (result % reducer.q ≡ unscale reducer.q x) × (result < 2 * reducer.q) × (result ≡ lazy_long reducer.q x) }
{
    let upper = product((x / 4294967296) as u32, s, reducer) as u64;
    step(upper + x % 4294967296, reducer)
}

// 1 in scaled form.
pub fn scaled_one(q: u32) -> u32
    requires { Odd q }
    ensures { result ≡ 2 ^ 32 % q }
{
    (4294967296 % (q as u64)) as u32
}

// 2^32 in scaled form: a product with it scales a residue.
pub fn scaled_scale(q: u32) -> u32
    requires { Odd q }
    ensures { result ≡ 2 ^ 64 % q }
{
    let one = scaled_one(q) as u64;
    (one * one % (q as u64)) as u32
}
