// The middle product of two slices of residues through the transforms, an open call (01, Middle product; 003 algorithm 35).
#![tactic(auto)]

ghost use Rattle.std.specs.Prelude.{◌≡◌, ◌≤◌, length};
ghost use Rattle.maths.specs.Vector.{AllBelow};
ghost use Rattle.maths.specs.Product.{middle_product_of};
ghost use Rattle.calls.specs.Outcome.{outcome, leaves};
ghost use Rattle.sets.specs.Table.{Listed};
ghost use Rattle.sets.specs.Derived.{transform_size_of};
ghost use Rattle.ntt_products.specs.Stored.{sent_inverse};
ghost use Rattle.ntt_products.specs.Placed.{table_length_of};
ghost use Rattle.ntt_middle.specs.Calls.{numbers_checked_of, transformed_answer, transformed_left, middle_work_left};
ghost use Rattle.ntt_middle.specs.Lengths.{Lengths};

use calls::Answer;
use ntt_products::WhichRoot;
use sets::Parameters;

// Stores `b` in the work slice, sent with the inverse of the root of a set's largest transform.
fn store(p: Parameters, b: &[u32], tables: &mut [u32], work: &mut [u32])
    requires { Listed p × (length tables.old ≡ table_length_of p 3) × (length work.old ≡ transform_size_of p 3)
        × (length b.now ≤ transform_size_of p 3) × AllBelow p.q (length b.now) b.now }
    ensures { work.new ≡ sent_inverse p 3 b.now }
{
    ntt_products::load_tables(p, 3, WhichRoot::Inverse, tables);
    calls::copy_in(work, 0, b);
    ntt_products::send_first(p, 3, tables, work, b.len());
}

// The middle product as the correlation of the reversed `a` with the stored `b`; `tables` and `x` are lent for the way.
fn correlate_stored(
    p: Parameters,
    a: &[u32],
    b: &[u32],
    out: &mut [u32],
    work: &mut [u32],
    tables: &mut [u32],
    x: &mut [u32],
)
    requires { Listed p × Lengths p (length a.now) (length b.now) (length out.old) (length work.old)
        × AllBelow p.q (length a.now) a.now × AllBelow p.q (length b.now) b.now
        × (length tables.old ≡ table_length_of p 3) × (length x.old ≡ transform_size_of p 3) }
    ensures { out.new ≡ middle_product_of p.q a.now b.now (length out.old) }
{
    store(p, b, tables, work);
    ntt_products::load_tables(p, 3, WhichRoot::Own, tables);
    ntt_middle_checks::load_reversed(x, a);
    ntt_products::correlate(p, 3, tables, x, a.len(), work, out.len());
    calls::copy_out(out, x, 0);
}

// The middle product of residues, with room for the tables of a root and for the numbers on the way.
fn fill(p: Parameters, a: &[u32], b: &[u32], out: &mut [u32], work: &mut [u32])
    requires { Listed p × Lengths p (length a.now) (length b.now) (length out.old) (length work.old)
        × AllBelow p.q (length a.now) a.now × AllBelow p.q (length b.now) b.now }
    ensures { out.new ≡ middle_product_of p.q a.now b.now (length out.old) }
{
    let length = ntt_products::table_length(p, 3);
    let mut tables = [0u32; 3605];
    let mut x = [0u32; 3328];
    let size = work.len();
    correlate_stored(p, a, b, out, work, &mut tables[0..length], &mut x[0..size]);
}

// Checks the numbers, and writes the middle product where all are residues.
fn checked(p: Parameters, a: &[u32], b: &[u32], out: &mut [u32], work: &mut [u32]) -> Answer
    requires { Listed p × Lengths p (length a.now) (length b.now) (length out.old) (length work.old) }
    ensures answer { outcome result ≡ numbers_checked_of p.q a.now b.now }
    ensures left { out.new
        ≡ leaves (numbers_checked_of p.q a.now b.now)
        (middle_product_of p.q a.now b.now (length out.old)) out.old }
{
    middle::checks::two_checked(a, b, p.q)?;
    fill(p, a, b, out, work);
    Ok(())
}

// The middle product of `a` and `b` modulo a set's q, with as many results as `out` has places.
pub fn middle_product(set: usize, a: &[u32], b: &[u32], out: &mut [u32], work: &mut [u32]) -> Answer
    ensures answer { outcome result ≡ transformed_answer set a.now b.now (length out.old) (length work.old) }
    ensures left { out.new ≡ transformed_left set a.now b.now out.old (length work.old) }
    ensures cleared { work.new
        ≡ middle_work_left set (length a.now) (length b.now) (length out.old) work.old }
{
    let p = sets::parameters_of(set);
    ntt_middle_checks::lengths_checked(set, p.d3, a.len(), b.len(), out.len(), work.len())?;
    let answer = checked(p, a, b, out, work);
    calls::clear(work);
    answer
}
