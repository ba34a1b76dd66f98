// The steps of the transform of a row of 256 numbers: 16 transforms of 16 numbers, and the exchange of rows and columns between two such steps (003
// section 3.2.2, applied to a row). Loops with products go over consecutive places, so that the compiler works on several at a time. Numbers are kept below
// small multiples of q.
#![tactic(auto)]

ghost use Rattle.std.specs.Prelude.{◌≡◌, ◌+◌, ◌*◌, ◌<◌, length};
ghost use Rattle.ntt_steps.specs.Steps.{written_apart, StepReady, Part, Parts, Quarters, SixteenReady, Sixteen, ExchangedRow, Exchanged};

use montgomery::Reducer;
use ntt_butterflies::Values;

// Writes what a butterfly gives: the first value at `place`, each of the others `apart` places after the one before.
fn write_apart(to: &mut [u32], place: usize, apart: usize, z: Values)
    requires { place + 3 * apart < length to.old }
    ensures { to.new ≡ written_apart to.old place apart z.zeroth z.first z.second z.third }
{
    to[place] = z.zeroth;
    to[place + apart] = z.first;
    to[place + 2 * apart] = z.second;
    to[place + 3 * apart] = z.third;
}

// Butterflies of the numbers 16 · part + i, 64, 128 and 192 places on, into the block of 64 that has the number `part`.
fn narrow_part(
    to: &mut [u32],
    from: &[u32],
    roots: &[u32],
    part: usize,
    lift: u32,
    reducer: Reducer,
)
    requires { StepReady reducer.q lift roots.now from.now to.old × (part < 4) }
    ensures { Part reducer.q lift roots.now from.now part to.old to.new }
{
    let start = 16 * part;
    let out = 64 * part;
    let t = roots[part];
    let u = roots[4 + part];
    let v = roots[2 * part];
    for i in 0..16 {
        let j = start + i;
        let z = ntt_butterflies::twiddled_butterfly(
            from[j],
            from[64 + j],
            from[128 + j],
            from[192 + j],
            t,
            u,
            v,
            lift,
            reducer,
        );
        write_apart(to, out + i, 16, z);
    }
}

// The first half of 16 transforms of 16 numbers, which are 16 places apart.
fn narrow(to: &mut [u32], from: &[u32], roots: &[u32], lift: u32, reducer: Reducer)
    requires { StepReady reducer.q lift roots.now from.now to.old }
    ensures { Parts reducer.q lift roots.now from.now to.new }
{
    for part in 0..4 {
        narrow_part(to, from, roots, part, lift, reducer);
    }
}

// The second half: butterflies of the numbers i, 64, 128 and 192 places on, into the same places.
fn wide(to: &mut [u32], from: &[u32], roots: &[u32], lift: u32, reducer: Reducer)
    requires { StepReady reducer.q lift roots.now from.now to.old }
    ensures { Quarters reducer.q lift roots.now from.now to.new }
{
    let u = roots[4];
    for i in 0..64 {
        let z = ntt_butterflies::plain_butterfly(
            from[i],
            from[64 + i],
            from[128 + i],
            from[192 + i],
            u,
            lift,
            reducer,
        );
        write_apart(to, i, 64, z);
    }
}

// 16 transforms of 16 numbers, which are 16 places apart.
pub fn sixteen(to: &mut [u32], from: &[u32], roots: &[u32], reducer: Reducer)
    requires { SixteenReady reducer.q roots.now from.now to.old }
    ensures { Sixteen reducer.q roots.now from.now to.new }
{
    let mut half = [0u32; 256];
    narrow(&mut half, from, roots, 2 * reducer.q, reducer);
    wide(to, &half, roots, 8 * reducer.q, reducer);
}

// Row `a` of 16 of the exchange: numbers that are 16 places apart come together.
fn exchange_row(to: &mut [u32], from: &[u32], a: usize)
    requires { (length from.now ≡ 256) × (length to.old ≡ 256) × (a < 16) }
    ensures { ExchangedRow from.now a to.old to.new }
{
    let start = 16 * a;
    for b in 0..16 {
        to[start + b] = from[16 * b + a];
    }
}

// Exchanges rows and columns of 16 numbers.
pub fn exchange(to: &mut [u32], from: &[u32])
    requires { (length from.now ≡ 256) × (length to.old ≡ 256) }
    ensures { Exchanged from.now to.new }
{
    for a in 0..16 {
        exchange_row(to, from, a);
    }
}
