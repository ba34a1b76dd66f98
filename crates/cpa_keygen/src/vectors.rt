// The vectors b̂_i of a public key, one polynomial ā_i after the other (003, algorithm 40; specs/Held.antt).
ghost use Rattle.std.specs.Prelude.{◌≡◌, true, not, suc, ◌+◌, ◌*◌, ◌^◌, ◌≤◌, ◌<◌, length, take};
ghost use Rattle.calls.specs.Outcome.{outcome, accepted, refuse};
ghost use Rattle.calls.specs.Region.{over, joined};
ghost use Rattle.maths.specs.Vector.{AllBelow};
ghost use Rattle.sets.specs.Table.{Listed};
ghost use Rattle.sets.specs.Rules.{ByteRules};
ghost use Rattle.sets.specs.Derived.{transform_size_of};
ghost use Rattle.byte_source.specs.Source.{state_at};
ghost use Rattle.samplers.specs.Blocks.{onward, answer_of};
ghost use Rattle.samplers.specs.Seeded.{public_state, public_drawn};
ghost use Rattle.ntt_products.specs.Stored.{sent_inverse};
ghost use Rattle.ntt_products.specs.Placed.{Placed, table_length_of, RootTables, InverseTables};
ghost use Rattle.scheme.specs.Encryption.{public_polynomial};
ghost use Rattle.scheme.specs.Answers.{work_length_of, is_taken, all_taken};
ghost use Rattle.cpa_keygen.specs.Held.{vectors_start_of, Held, sums, held_vector, stored_vector};

use calls::Answer;
use ntt_products::WhichRoot;
use samplers::Advance;
use sets::Parameters;

// Where the stored vectors begin in the work slice.
pub fn vectors_start(p: Parameters) -> usize
    requires { ByteRules p × Listed p }
    ensures { result ≡ vectors_start_of p }
{
    p.d3 + sets::derived::error_count(p)
}

// Where they end.
pub fn vectors_end(p: Parameters) -> usize
    requires { ByteRules p × Listed p }
    ensures { result ≡ vectors_start_of p + p.d1 * p.t }
{
    vectors_start(p) + p.d1 * p.t
}

// How many numbers b_i has.
fn vector_length(p: Parameters) -> usize
    requires { Listed p }
    ensures { result ≡ p.d + p.k }
{
    p.d + p.k
}

// Where the errors e_i begin in the work slice.
fn errors_start(p: Parameters, i: usize) -> usize
    requires { ByteRules p × Listed p × (i < p.t) }
    ensures { result ≡ p.d3 + (p.d + p.k) * i }
{
    p.d3 + (p.d + p.k) * i
}

// Where b̂_i begins in the work slice.
fn vector_start(p: Parameters, i: usize) -> usize
    requires { ByteRules p × Listed p × (i < p.t) }
    ensures { result ≡ vectors_start_of p + p.d1 * i }
{
    vectors_start(p) + p.d1 * i
}

// Adds the errors to the first numbers of `x`.
fn add_errors(x: &mut [u32], errors: &[u32], q: u32)
    requires { (length errors.now ≤ length x.old) × AllBelow q (length errors.now) x.old × AllBelow q (length errors.now) errors.now
        × (q < 2 ^ 24) }
    ensures { x.new ≡ over x.old 0 (sums q x.old errors.now) }
{
    for (j, error) in errors.iter().enumerate() {
        x[j] = residues::add(x[j], *error, q);
    }
}

// Vector b_i from the polynomial ā_i at the front of `x`: its correlations with the secret, plus the errors.
fn key_vector(p: Parameters, i: usize, tables: &[u32], x: &mut [u32], work: &[u32])
    requires { ByteRules p × Listed p × (i < p.t) × RootTables p 3 tables.now × Placed p 3 p.n x.old × Held p work.now }
    ensures { take (p.d + p.k) x.new ≡ held_vector p (take p.n x.old) work.now i }
{
    let secret = sets::derived::transform_size(p, 3);
    let start = errors_start(p, i);
    let count = vector_length(p);
    let end = start + count;
    ntt_products::correlate(p, 3, tables, x, p.n, &work[0..secret], count);
    add_errors(x, &work[start..end], p.q);
}

// Stores the vector at the front of `x` as b̂_i.
fn store_vector(p: Parameters, i: usize, tables: &[u32], x: &[u32], work: &mut [u32])
    requires { ByteRules p × Listed p × (i < p.t) × InverseTables p 1 tables.now × (length x.now ≡ transform_size_of p 3)
        × AllBelow p.q (p.d + p.k) x.now × (length work.old ≡ work_length_of p) }
    ensures { work.new ≡ over work.old (vectors_start_of p + p.d1 * i) (sent_inverse p 1 (take (p.d + p.k) x.now)) }
{
    let size = sets::derived::transform_size(p, 1);
    let start = vector_start(p, i);
    let end = start + size;
    calls::copy_in(work, start, &x[0..size]);
    let n = vector_length(p);
    ntt_products::send_first(p, 1, tables, &mut work[start..end], n);
}

// Draws the polynomial ā_i into the front of `x`.
fn draw_polynomial(p: Parameters, seed: &[u8; 32], i: usize, counter: u32, x: &mut [u32]) -> Advance
    requires { ByteRules p × Listed p × (i < p.t) × (state_at seed.now counter ≡ public_state p seed.now i)
        × (length x.old ≡ transform_size_of p 3) }
    ensures answer { onward seed.now result ≡ answer_of (public_drawn p seed.now i) (public_state p seed.now (suc i)) }
    ensures result { is_taken (public_drawn p seed.now i) ≡ true → take p.n x.new ≡ public_polynomial p seed.now i }
{
    let n = p.n;
    samplers::residues_from(p, seed, p.bytpca, counter, &mut x[0..n])
}

// Draws the polynomial ā_i and stores b̂_i; `x` is lent for the way.
fn next_vector(
    p: Parameters,
    seed: &[u8; 32],
    i: usize,
    counter: u32,
    tables: &[u32],
    inverse_tables: &[u32],
    x: &mut [u32],
    work: &mut [u32],
) -> Advance
    requires { ByteRules p × Listed p × (i < p.t) × (state_at seed.now counter ≡ public_state p seed.now i)
        × RootTables p 3 tables.now × InverseTables p 1 inverse_tables.now × (length x.old ≡ transform_size_of p 3) × Held p work.old }
    ensures answer { onward seed.now result ≡ answer_of (public_drawn p seed.now i) (public_state p seed.now (suc i)) }
    ensures result { is_taken (public_drawn p seed.now i) ≡ true → work.new ≡ over work.old (vectors_start_of p + p.d1 * i)
        (stored_vector p seed.now work.old i) }
{
    let next = draw_polynomial(p, seed, i, counter, x)?;
    key_vector(p, i, tables, x, work);
    store_vector(p, i, inverse_tables, x, work);
    Ok(next)
}

// Stores all vectors of a public key.
fn all_vectors(
    p: Parameters,
    seed: &[u8; 32],
    tables: &[u32],
    inverse_tables: &[u32],
    x: &mut [u32],
    work: &mut [u32],
) -> Answer
    requires { ByteRules p × Listed p × RootTables p 3 tables.now × InverseTables p 1 inverse_tables.now
        × (length x.old ≡ transform_size_of p 3) × Held p work.old }
    ensures answer { outcome result ≡ refuse (not (all_taken p.t (public_drawn p seed.now))) 5 0 accepted }
    ensures result { all_taken p.t (public_drawn p seed.now) ≡ true → work.new ≡ over work.old (vectors_start_of p)
        (joined p.t (stored_vector p seed.now work.old)) }
{
    let mut counter: u32 = 0;
    for i in 0..p.t {
        counter = next_vector(p, seed, i, counter, tables, inverse_tables, x, work)?;
    }
    Ok(())
}

// Fills the tables of the transforms, and stores all vectors of a public key.
fn vectors_with_buffers(
    p: Parameters,
    seed: &[u8; 32],
    tables: &mut [u32],
    inverse_tables: &mut [u32],
    x: &mut [u32],
    work: &mut [u32],
) -> Answer
    requires { ByteRules p × Listed p × (length tables.old ≡ table_length_of p 3)
        × (length inverse_tables.old ≡ table_length_of p 1) × (length x.old ≡ transform_size_of p 3) × Held p work.old }
    ensures answer { outcome result ≡ refuse (not (all_taken p.t (public_drawn p seed.now))) 5 0 accepted }
    ensures result { all_taken p.t (public_drawn p seed.now) ≡ true → work.new ≡ over work.old (vectors_start_of p)
        (joined p.t (stored_vector p seed.now work.old)) }
{
    ntt_products::load_tables(p, 3, WhichRoot::Own, tables);
    ntt_products::load_tables(p, 1, WhichRoot::Inverse, inverse_tables);
    all_vectors(p, seed, tables, inverse_tables, x, work)
}

// Stores all vectors of a public key, with room for the tables of the transforms and for the numbers on the way.
pub fn store_vectors(p: Parameters, seed: &[u8; 32], work: &mut [u32]) -> Answer
    requires { ByteRules p × Listed p × Held p work.old }
    ensures answer { outcome result ≡ refuse (not (all_taken p.t (public_drawn p seed.now))) 5 0 accepted }
    ensures result { all_taken p.t (public_drawn p seed.now) ≡ true → work.new ≡ over work.old (vectors_start_of p)
        (joined p.t (stored_vector p seed.now work.old)) }
{
    let mut tables = [0u32; 3605];
    let mut inverse_tables = [0u32; 3605];
    let mut x = [0u32; 3328];
    let third = ntt_products::table_length(p, 3);
    let first = ntt_products::table_length(p, 1);
    let size = sets::derived::transform_size(p, 3);
    vectors_with_buffers(
        p,
        seed,
        &mut tables[0..third],
        &mut inverse_tables[0..first],
        &mut x[0..size],
        work,
    )
}
