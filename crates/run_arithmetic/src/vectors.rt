// The transforms, forth and back with each root and its inverse, and correlations with a stored vector. They are not open calls: what they ask of a vector
// and of the lengths is looked at first. A line has the set, the number of the transform, how many numbers of the vector count, and the lengths of its
// tables and of the vector.
ghost use Rattle.std.specs.Prelude.{◌≡◌, true, ◌+◌, ◌≤◌, length};
ghost use Rattle.sets.specs.Table.{Listed};
ghost use Rattle.ntt_products.specs.Placed.{Placed, table_length_of};

use ntt_products::WhichRoot;
use report::script::Line;
use sets::Parameters;
use std::io;

// The record of a set; that of set 0 where there is no such set.
fn record_of(set: usize) -> Parameters
    ensures { Listed result }
{
    if sets::LAST < set {
        return sets::parameters_of(0);
    }
    sets::parameters_of(set)
}

// Whether a transform may be made: the slices have the set's lengths, and the first `n` numbers of the vector are residues.
fn ready(p: Parameters, i: usize, n: usize, tables: &[u32], x: &[u32]) -> bool
    requires { Listed p }
    ensures { result ≡ true → (length tables.now ≡ table_length_of p i) × Placed p i n x.now }
{
    if tables.len() != ntt_products::table_length(p, i) {
        return false;
    }
    if x.len() != sets::derived::transform_size(p, i) {
        return false;
    }
    n <= calls::first_at_least(x, p.q)
}

// Sending of a vector with a root or its inverse, and recovery of a vector that was sent with either.
#[derive(Clone, Copy)]
pub enum Transform {
    Send,
    SendInverse,
    Recover,
    RecoverInverse,
}

// Transforms the first `n` numbers of a vector, or recovers all, and prints the checksum.
fn transform_first(
    rt: &impl Print,
    transform: Transform,
    p: Parameters,
    i: usize,
    n: usize,
    tables: &mut [u32],
    x: &mut [u32],
) -> io::Result<()>
    requires { Listed p }
{
    let n = match transform {
        Transform::Send | Transform::SendInverse => n,
        Transform::Recover | Transform::RecoverInverse => x.len(),
    };
    if ready(p, i, n, tables, x) {
        let which = match transform {
            Transform::Send | Transform::RecoverInverse => WhichRoot::Own,
            Transform::SendInverse | Transform::Recover => WhichRoot::Inverse,
        };
        ntt_products::load_tables(p, i, which, tables);
        match transform {
            Transform::Send | Transform::SendInverse => ntt_products::send_first(
                p, i, tables, x, n,
            ),
            Transform::Recover | Transform::RecoverInverse => ntt_products::recover_first(
                p, i, tables, x, n,
            ),
        }
        print!(rt; " {}", report::checksum(x))?;
    }
    Ok(())
}

// How many places a correlation of `n` numbers settles: as many as these n leave. The test makes sure that one more than the size is a number.
fn settled(size: usize, n: usize) -> usize
    requires { n ≤ size }
    ensures { n + result ≤ size + 1 }
{
    if 4096 < size {
        return 0;
    }
    size + 1 - n
}

// Correlates the first `n` numbers of a vector with a stored one, and prints the checksum of the places that this settles.
fn correlate(
    rt: &impl Print,
    p: Parameters,
    i: usize,
    n: usize,
    tables: &mut [u32],
    x: &mut [u32],
    stored: &[u32],
) -> io::Result<()>
    requires { Listed p }
{
    let size = stored.len();
    if 0 < n && ready(p, i, n, tables, x) && ready(p, i, size, tables, stored) {
        let m = settled(size, n);
        ntt_products::load_tables(p, i, WhichRoot::Own, tables);
        ntt_products::correlate(p, i, tables, x, n, stored, m);
        print!(rt; " {}", report::checksum(report::front(x, m)))?;
    }
    Ok(())
}

// The same of two vectors of the store, the first of which is copied.
pub fn correlation(rt: &impl Print, line: Line, numbers: &[u32]) -> io::Result<()> {
    let [set, i, n, entries, size, ..] = line.operands;
    let mut tables = [0u32; 3605];
    let mut x = [0u32; 3328];
    report::repeat(&mut x, report::part(numbers, crate::A, 3328));
    correlate(
        rt,
        record_of(set),
        i,
        n,
        report::front_mut(&mut tables, entries),
        report::front_mut(&mut x, size),
        report::part(numbers, crate::B, size),
    )
}

// A transform of a vector of the store.
pub fn transform_stored(
    rt: &impl Print,
    transform: Transform,
    line: Line,
    numbers: &mut [u32],
) -> io::Result<()> {
    let [set, i, n, entries, size, ..] = line.operands;
    let mut tables = [0u32; 3605];
    transform_first(
        rt,
        transform,
        record_of(set),
        i,
        n,
        report::front_mut(&mut tables, entries),
        report::part_mut(numbers, crate::A, size),
    )
}
