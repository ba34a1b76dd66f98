// The transforms by the length of a row: rows of 256 numbers, as sets 1 to 12 have, go through `ntt`, rows of one number, as set 0 has, through
// `ntt_plain`.
#![tactic(auto)]

ghost use Rattle.std.specs.Prelude.{◌≡◌, ℕ, ◌+◌, ◌*◌, ◌%◌, ◌^◌, ◌≤◌, ◌<◌, length, take};
ghost use Rattle.maths.specs.Vector.{AllBelow};
ghost use Rattle.maths.specs.Transform.{send, recover};
ghost use Rattle.maths.specs.Congruence.{Mod};
ghost use Rattle.maths.specs.Root.{power_table};
ghost use Rattle.montgomery.specs.Scaled.{Odd};
ghost use Rattle.ntt_plain.specs.Plain.{Plain};
ghost use Rattle.ntt_tables.specs.Tables.{Ready, Tables};
ghost use Rattle.ntt_by_row.specs.Lent.{lent_length, Sizes, Lent, OrderedPowers, TablesFor};

// Makes the tables of a transform out of the powers of its root, which stand at the front: for rows of one number, the powers are all that is read.
pub fn fill_tables(tables: &mut [u32], rows: usize, row: usize, q: u32)
    requires { Sizes q row rows × (length tables.old ≡ lent_length row rows) × AllBelow q (rows * row) tables.old }
    ensures lent { Lent q row rows tables.new }
    ensures tables { (w : ℕ) → OrderedPowers q row rows w tables.old → TablesFor q row rows w tables.new }
{
    if row == 256 {
        ntt_tables::fill_tables(tables, rows, q);
        return;
    }
}

// How many rows of 256 the first `n` of all places take up.
fn rows_used(n: usize, rows: usize) -> usize
    requires { (n ≤ rows * 256) × (rows ≤ 16) }
    ensures { (result ≤ rows) × (n ≤ result * 256) × (result * 256 ≤ rows * 256) }
{
    (n + 255) / 256
}

// The transform of the first `n` numbers of `x`, for rows of 256.
fn forward_rows(x: &mut [u32], tables: &[u32], n: usize, rows: usize, q: u32)
    requires { Ready q rows tables.now × (length x.old ≡ rows * 256) × (n ≤ rows * 256) × AllBelow q n x.old }
    ensures { (w : ℕ) → Tables q rows w tables.now → x.new ≡ send q 256 rows w (take n x.old) }
{
    let m = rows_used(n, rows);
    calls::clear_at(x, n, m * 256 - n);
    ntt::forward(x, tables, m, rows, q);
}

// The transform of the first `n` numbers of `x`, for rows of one number.
fn forward_numbers(x: &mut [u32], powers: &[u32], n: usize, q: u32)
    requires { Plain q 1 powers.now (take n x.old) × (length x.old ≡ length powers.now) × (length powers.now ≤ 16) × (n ≤ length x.old) }
    ensures { (w : ℕ) → powers.now ≡ power_table q w (length powers.now) → Mod q (w ^ length powers.now) 1
        → x.new ≡ send q 1 (length powers.now) w (take n x.old) }
{
    let mut buffer = [0u32; 16];
    let mut between = [0u32; 16];
    let count = powers.len();
    calls::copy_in(&mut buffer, 0, &x[0..n]);
    ntt_plain::forward_with_buffer(
        x,
        &buffer[0..n],
        powers,
        n,
        count,
        1,
        q,
        &mut between[0..count],
    );
}

// The transform of the first `n` numbers of `x`, with zeros for the others, whatever stands there.
pub fn forward(x: &mut [u32], tables: &[u32], n: usize, rows: usize, row: usize, q: u32)
    requires { Lent q row rows tables.now × (length x.old ≡ rows * row) × (n ≤ rows * row) × AllBelow q n x.old }
    ensures { (w : ℕ) → TablesFor q row rows w tables.now → x.new ≡ send q row rows w (take n x.old) }
{
    if row == 256 {
        forward_rows(x, tables, n, rows, q);
        return;
    }
    forward_numbers(x, &tables[0..rows], n, q);
}

// The scale of an inverse transform: e, with what the twist by powers that are not in scaled form asks.
pub fn scaled_twice(e: u32, q: u32) -> u32
    requires { Odd q × (e < q) }
    ensures { result ≡ e * (2 ^ 64 % q) % q }
{
    residues::multiply(e, montgomery::scaled_scale(q), q)
}

// The first `m` numbers of what a stored vector was made from, for rows of 256.
fn inverse_rows(x: &mut [u32], tables: &[u32], e: u32, m: usize, rows: usize, q: u32)
    requires { Ready q rows tables.now × (length x.old ≡ rows * 256) × AllBelow q (rows * 256) x.old × (e < q) × (m ≤ rows * 256) }
    ensures { (w : ℕ) → Tables q rows w tables.now → take m x.new ≡ recover q 256 rows w e m x.old }
{
    let by = scaled_twice(e, q);
    ntt::inverse(x, tables, by, rows_used(m, rows), rows, q);
}

// What a stored vector was made from, for rows of one number.
fn inverse_numbers(x: &mut [u32], powers: &[u32], e: u32, q: u32)
    requires { Plain q 1 powers.now x.old × (length x.old ≡ length powers.now) × (length powers.now ≤ 16) × (e < q) }
    ensures { (w : ℕ) → powers.now ≡ power_table q w (length powers.now) → Mod q (w ^ length powers.now) 1
        → x.new ≡ recover q 1 (length powers.now) w e (length powers.now) x.old }
{
    let n = x.len();
    let mut buffer = [0u32; 16];
    let mut between = [0u32; 16];
    calls::copy_in(&mut buffer, 0, x);
    ntt_plain::inverse_with_buffer(x, &buffer[0..n], powers, e, n, 1, q, &mut between[0..n]);
}

// The first `m` numbers of what a stored vector was made from: the transform with the root whose tables are lent, the inverse of the one it was sent
// with, scaled by `e`.
pub fn inverse(x: &mut [u32], tables: &[u32], e: u32, m: usize, rows: usize, row: usize, q: u32)
    requires { Lent q row rows tables.now × (length x.old ≡ rows * row) × AllBelow q (rows * row) x.old × (e < q) × (m ≤ rows * row) }
    ensures { (w : ℕ) → TablesFor q row rows w tables.now → take m x.new ≡ recover q row rows w e m x.old }
{
    if row == 256 {
        inverse_rows(x, tables, e, m, rows, q);
        return;
    }
    inverse_numbers(x, &tables[0..rows], e, q);
}
