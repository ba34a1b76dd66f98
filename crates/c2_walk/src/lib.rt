// The walk over c2 of the encryption on bytes (003, algorithm 2, line 9, worked as in algorithm 41): the sums of correlations are the first row of an inverse
// transform, whose rows are done; each place is the sum of a column, to which its message bit is added.
#![tactic(auto)]

ghost use Rattle.std.specs.Prelude.{◌≡◌, List, ℕ, ◌+◌, ◌<◌, length};
ghost use Rattle.c2_place.specs.Walk.{Walked};
ghost use Rattle.c2_walk.specs.Finished.{WalkReady, finished};

use montgomery::Reducer;

// Finishes place `j` of c2: the sum of column `j`, and `half` times the message bit.
fn finish_place(
    c2: &mut [u32],
    j: usize,
    rows: &[u32],
    message: &[u8],
    by: u32,
    half: u32,
    count: usize,
    reducer: Reducer,
)
    requires { WalkReady reducer.q by half count rows.now (length c2.old) × (j < length c2.old) }
    ensures { (before : List ℕ)
        → Walked (finished reducer.q by half count (length c2.old) rows.now message.now) before j c2.old
        → Walked (finished reducer.q by half count (length c2.old) rows.now message.now) before (j + 1) c2.new }
{
    let sum = ntt::first_row_place(rows, j, by, count, reducer);
    let bit = bit_fields::bit_at(message, j);
    c2_place::finish(c2, j, sum, bit, half, reducer.q);
}

// Writes c2 in one walk.
pub fn fill(
    c2: &mut [u32],
    rows: &[u32],
    message: &[u8],
    by: u32,
    half: u32,
    count: usize,
    reducer: Reducer,
)
    requires { WalkReady reducer.q by half count rows.now (length c2.old) }
    ensures { c2.new ≡ finished reducer.q by half count (length c2.old) rows.now message.now }
{
    for j in 0..c2.len() {
        finish_place(c2, j, rows, message, by, half, count, reducer);
    }
}
