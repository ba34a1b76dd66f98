// Sums of products of vectors, place by place (01, Sealing).
ghost use Rattle.std.specs.Prelude.{◌≡◌, ◌<◌, ◌≤◌, ◌%◌};
ghost use Rattle.maths.specs.Product.{product};
ghost use Rattle.calls.specs.Region.{vector};
ghost use Rattle.sets.specs.Rules.{Rules};
ghost use Rattle.numbers.specs.Operands.{Family};
ghost use Rattle.numbers.specs.Scheme.{sum_of_products};

use crate::counts;
use middle::places;
use sets::Parameters;

// A place of the product of vector `i` of `xs`, whose vectors have `m` numbers, and vector `i` of `ys`, whose vectors have `n`.
fn term_place(
    xs: &[u32],
    m: usize,
    ys: &[u32],
    n: usize,
    i: usize,
    place: usize,
    p: Parameters,
) -> u32
    requires { Rules p × Family p.q m p.t xs.now × Family p.q n p.t ys.now
        × (m ≤ 4096) × (n ≤ 4096) × (i < p.t) × (place < 8192) }
    ensures { result ≡ product (vector m xs.now i) (vector n ys.now i) place % p.q }
{
    let q = p.q;
    let start = counts::product(m, i);
    let stop = start + m;
    let from = counts::product(n, i);
    let end = from + n;
    places::product_place(&xs[start..stop], &ys[from..end], place, q)
}

// The sum of these over the vectors of both families.
pub fn sum_place(xs: &[u32], m: usize, ys: &[u32], n: usize, place: usize, p: Parameters) -> u32
    requires { Rules p × Family p.q m p.t xs.now × Family p.q n p.t ys.now
        × (m ≤ 4096) × (n ≤ 4096) × (place < 8192) }
    ensures { result ≡ sum_of_products p.t m xs.now n ys.now place % p.q }
{
    let q = p.q;
    let t = p.t;
    let mut sum: u32 = 0;
    for i in 0..t {
        sum = residues::add(sum, term_place(xs, m, ys, n, i, place, p), q);
    }
    sum
}
