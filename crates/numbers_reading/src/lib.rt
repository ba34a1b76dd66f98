// Reading on numbers (01, Reading).
#![tactic(auto)]

mod bits;

ghost use Rattle.std.specs.Prelude.{◌≡◌, ◌<◌, ◌≤◌, ◌+◌, length};
ghost use Rattle.calls.specs.Outcome.{outcome};
ghost use Rattle.calls.specs.Checks.{all_of};
ghost use Rattle.sets.specs.Table.{set_of, IsSet};
ghost use Rattle.sets.specs.Rules.{Rules};
ghost use Rattle.numbers.specs.Operands.{ReadingOperands};
ghost use Rattle.numbers.specs.Scheme as scheme;
ghost use Rattle.numbers.specs.Scheme.{opened};
ghost use Rattle.numbers.specs.Calls.{reading_shape, reading_range, reading_answer, reading_left};

use calls::{Answer, Refusal};
use middle::{checks, places};
use sets::Parameters;

// Whether the lengths are the set's.
fn lengths_fit(p: Parameters, c1: usize, c2: usize, s: usize, bits: usize) -> bool
    requires { Rules p }
    ensures { result ≡ all_of (reading_shape p c1 c2 s bits) }
{
    if c1 != p.n + p.k {
        return false;
    }
    if c2 != p.d {
        return false;
    }
    if s != p.n + p.d + p.k - 1 {
        return false;
    }
    if bits != p.d {
        return false;
    }
    true
}

// Refused at the first number of `c1`, `c2`, then `s`, that is `q` or more.
fn numbers_checked(c1: &[u32], c2: &[u32], s: &[u32], q: u32) -> Answer
    requires { length c1.now + length c2.now + length s.now ≤ 65536 }
    ensures { outcome result ≡ reading_range q c1.now c2.now s.now }
{
    checks::two_checked(c1, c2, q)?;
    checks::one_checked(s, q, c1.len() + c2.len())
}

// The number w at place `j`.
fn opened_place(p: Parameters, c1: &[u32], c2: &[u32], s: &[u32], j: usize) -> u32
    requires { Rules p × ReadingOperands p c1.now c2.now s.now × (j < p.d) }
    ensures { result ≡ opened p c1.now c2.now s.now j }
{
    let q = p.q;
    let middle = places::product_place(c1, s, p.n + p.k - 1 + j, q);
    residues::subtract(c2[j], middle, q)
}

// Reads every bit.
fn fill(set: usize, p: Parameters, c1: &[u32], c2: &[u32], s: &[u32], bits: &mut [u32])
    requires { IsSet set × (p ≡ set_of set) × ReadingOperands p c1.now c2.now s.now × (length bits.old ≡ p.d) }
    ensures { bits.new ≡ scheme.reading set p c1.now c2.now s.now }
{
    for (j, bit) in bits.iter_mut().enumerate() {
        *bit = bits::rounded_bit(set, p, opened_place(p, c1, c2, s, j));
    }
}

// The bits read from `c1` and `c2` with the secret `s`.
pub fn reading(set: usize, c1: &[u32], c2: &[u32], s: &[u32], bits: &mut [u32]) -> Answer
    ensures answer { outcome result ≡ reading_answer set c1.now c2.now s.now (length bits.old) }
    ensures left { bits.new ≡ reading_left set c1.now c2.now s.now bits.old }
{
    if sets::LAST < set {
        return Err(Refusal::NoSuchSet);
    }
    let p = sets::parameters_of(set);
    let q = p.q;
    if !lengths_fit(p, c1.len(), c2.len(), s.len(), bits.len()) {
        return Err(Refusal::Length);
    }
    numbers_checked(c1, c2, s, q)?;
    fill(set, p, c1, c2, s, bits);
    Ok(())
}
