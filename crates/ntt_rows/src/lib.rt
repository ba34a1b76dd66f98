// The transform of a row of 256 numbers as 16 columns of 16 numbers, a twist and 16 rows of 16 (003 section 3.2.2, applied to a row), and the rows of a
// whole transform, forward and inverse.
#![tactic(auto)]

ghost use Rattle.ntt_rows.specs.Rows.{RowReady, Row, MultiplyReady, Multiplied, ForwardReady, ForwardRow, InverseReady, InverseRow};

use montgomery::Reducer;

// Multiplies each number by the number that `by` has the scaled form of at its place.
fn multiply(to: &mut [u32], from: &[u32], by: &[u32], reducer: Reducer)
    requires { MultiplyReady reducer.q by.now from.now to.old }
    ensures { Multiplied reducer.q by.now from.now to.new }
{
    for i in 0..256 {
        to[i] = montgomery::product(from[i], by[i], reducer);
    }
}

// The transform of a row of numbers below 2 · reducer.q, in natural order. `tables` has 256 powers for the twist and 8 for the columns, in scaled form.
fn transform_row(to: &mut [u32], from: &[u32], tables: &[u32], reducer: Reducer)
    requires { RowReady reducer.q tables.now from.now to.old }
    ensures { Row reducer.q tables.now from.now to.new }
{
    let mut numbers = [0u32; 256];
    let mut exchanged = [0u32; 256];
    ntt_steps::sixteen(&mut numbers, from, &tables[256..264], reducer);
    ntt_steps::exchange(&mut exchanged, &numbers);
    multiply(&mut numbers, &exchanged, &tables[0..256], reducer);
    ntt_steps::sixteen(to, &numbers, &tables[256..264], reducer);
}

// Row of a forward transform: the twist with the powers of its places, the transform, and residues, each times what `by` is the scaled form of.
pub fn forward_row(x: &mut [u32], twist: &[u32], tables: &[u32], by: u32, reducer: Reducer)
    requires { ForwardReady reducer.q by twist.now tables.now x.old }
    ensures { ForwardRow reducer.q by twist.now tables.now x.old x.new }
{
    let mut twisted = [0u32; 256];
    multiply(&mut twisted, x, twist, reducer);
    transform_row(x, &twisted, tables, reducer);
    ntt_settle::settle(x, by, reducer);
}

// Row of an inverse transform: the transform of numbers below 2 · reducer.q, and the twist, to numbers below 2 · q.
pub fn inverse_row(x: &mut [u32], twist: &[u32], tables: &[u32], reducer: Reducer)
    requires { InverseReady reducer.q twist.now tables.now x.old }
    ensures { InverseRow reducer.q twist.now tables.now x.old x.new }
{
    let mut row = [0u32; 256];
    transform_row(&mut row, x, tables, reducer);
    multiply(x, &row, twist, reducer);
}
