// One place of a product of polynomials, the work that every call on numbers is made of.
ghost use Rattle.std.specs.Prelude.{◌≡◌, ◌-◌, ◌+◌, ◌<◌, ◌%◌, min};
ghost use Rattle.maths.specs.Product.{product};
ghost use Rattle.middle.specs.Operand.{Operand};

// The first place of a factor that meets one of the `n` numbers of the other at place `p` of the product.
fn first_meeting(n: usize, p: usize) -> usize
    requires { p < 8192 }
    ensures { result ≡ p + 1 - n }
{
    if p + 1 < n { 0 } else { p + 1 - n }
}

// Past the last place of a factor of `n` numbers that counts at place `p` of the product.
fn end_meeting(n: usize, p: usize) -> usize
    requires { p < 8192 }
    ensures { result ≡ min n (p + 1) }
{
    if n < p + 1 { n } else { p + 1 }
}

// Place `p` of the product of `a` and `b`, modulo `q`. The whole sum fits 64 bits and is reduced once.
pub fn product_place(a: &[u32], b: &[u32], p: usize, q: u32) -> u32
    requires { Operand a.now × Operand b.now × (p < 8192) × (0 < q) }
    ensures { result ≡ product a.now b.now p % q }
{
    let end = end_meeting(a.len(), p);
    let begin = first_meeting(b.len(), p);
    let mut sum: u64 = 0;
    for j in begin..end {
        sum += residues::product(a[j], b[p - j]);
    }
    residues::reduce(sum, q)
}
