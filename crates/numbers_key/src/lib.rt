// Key on numbers (01, Key).
#![tactic(auto)]

ghost use Rattle.std.specs.Prelude.{◌≡◌, ◌<◌, ◌≤◌, ◌+◌, ◌^◌, length};
ghost use Rattle.maths.specs.Vector.{at};
ghost use Rattle.calls.specs.Outcome.{outcome, accepted};
ghost use Rattle.calls.specs.Checks.{passing, all_of, refuse_first};
ghost use Rattle.sets.specs.Rules.{Rules};
ghost use Rattle.numbers.specs.Operands.{KeyOperands};
ghost use Rattle.numbers.specs.Scheme as scheme;
ghost use Rattle.numbers.specs.Calls.{is_error, key_shape, key_range, key_answer, key_left};

use calls::{Answer, Refusal};
use middle::{checks, places};
use numbers::{counts, signed};
use sets::Parameters;

// Whether the lengths are the set's.
fn lengths_fit(p: Parameters, a: usize, s: usize, e: usize, b: usize) -> bool
    requires { Rules p }
    ensures { result ≡ all_of (key_shape p a s e b) }
{
    if a != counts::product(p.t, p.n) {
        return false;
    }
    if s != p.n + p.d + p.k - 1 {
        return false;
    }
    let count = sets::derived::error_count(p);
    if e != count {
        return false;
    }
    if b != count {
        return false;
    }
    true
}

// The index of the first number of size above `eta`, or the length where there is none, as `passing` counts.
fn first_error(es: &[i32], eta: u32) -> usize
    requires { eta < 2 ^ 24 }
    ensures { result ≡ passing (is_error eta) 0 es.now }
{
    for (i, e) in es.iter().enumerate() {
        if !signed::size_within(*e, eta) {
            return i;
        }
    }
    es.len()
}

// Refused at the first number of size above `eta`, its place counted from `offset`.
fn errors_checked(es: &[i32], eta: u32, offset: usize) -> Answer
    requires { (eta < 2 ^ 24) × (offset + length es.now ≤ 65536) }
    ensures { outcome result ≡ refuse_first (is_error eta) 0 offset es.now accepted }
{
    calls::first_checked(first_error(es, eta), es.len(), offset)
}

// Refused at the first number of `a`, then `s`, that is `q` or more, then at the first error of size above `eta`.
fn numbers_checked(a: &[u32], s: &[u32], e: &[i32], q: u32, eta: u32) -> Answer
    requires { (length a.now + length s.now + length e.now ≤ 65536) × (eta < 2 ^ 24) }
    ensures { outcome result ≡ key_range q eta a.now s.now e.now }
{
    checks::two_checked(a, s, q)?;
    errors_checked(e, eta, a.len() + s.len())
}

// The number at place `l` of b, which is place j of b_i for l = i · (d + k) + j.
fn key_place(p: Parameters, a: &[u32], s: &[u32], e: &[i32], l: usize) -> u32
    requires { Rules p × KeyOperands p a.now s.now e.now × (l < length e.now) }
    ensures { result ≡ at (scheme.key p a.now s.now e.now) l }
{
    let q = p.q;
    let width = p.d + p.k;
    let n = p.n;
    let from = counts::product(n, l / width);
    let end = from + n;
    let product = places::product_place(&a[from..end], s, n - 1 + l % width, q);
    let error = residues::of_signed(e[l], q);
    residues::add(product, error, q)
}

// Writes each number of b.
fn fill(p: Parameters, a: &[u32], s: &[u32], e: &[i32], b: &mut [u32])
    requires { Rules p × KeyOperands p a.now s.now e.now × (length b.old ≡ length e.now) }
    ensures { b.new ≡ scheme.key p a.now s.now e.now }
{
    for (l, place) in b.iter_mut().enumerate() {
        *place = key_place(p, a, s, e, l);
    }
}

// The key b of the public polynomials `a`, the secret `s` and the errors `e`.
pub fn key(set: usize, a: &[u32], s: &[u32], e: &[i32], b: &mut [u32]) -> Answer
    ensures answer { outcome result ≡ key_answer set a.now s.now e.now (length b.old) }
    ensures left { b.new ≡ key_left set a.now s.now e.now b.old }
{
    if sets::LAST < set {
        return Err(Refusal::NoSuchSet);
    }
    let p = sets::parameters_of(set);
    let q = p.q;
    let eta = p.eta;
    if !lengths_fit(p, a.len(), s.len(), e.len(), b.len()) {
        return Err(Refusal::Length);
    }
    numbers_checked(a, s, e, q, eta)?;
    fill(p, a, s, e, b);
    Ok(())
}
