// Butterflies: two steps of a transform in one, four values from four numbers (003 section 3.2.2, applied to a row). Reduction is lazy: what goes in is below
// `lift`, a multiple of q and at least 2 · q; what comes out is congruent to the values and below 4 · lift.
#![tactic(auto)]

ghost use Rattle.std.specs.Prelude.{◌≡◌, ◌*◌, ◌%◌, ◌^◌, ◌<◌};
ghost use Rattle.maths.specs.Congruence.{Mod};
ghost use Rattle.maths.specs.Butterfly.{difference};
ghost use Rattle.montgomery.specs.Scaled.{unscale};
ghost use Rattle.ntt_butterflies.specs.Lazy.{ButterflyReady, LazyButterfly};

use montgomery::Reducer;

// What a butterfly gives.
#[derive(Drop)]
pub struct Values {
    pub zeroth: u32,
    pub first: u32,
    pub second: u32,
    pub third: u32,
}

// The difference of two numbers below `lift`, a multiple of q, times the number that `w` is the scaled form of.
fn turned_difference(a: u32, b: u32, lift: u32, w: u32, reducer: Reducer) -> u32
    requires { (w < reducer.q) × (lift % reducer.q ≡ 0) × (2 * lift < 2 ^ 32) × (a < lift) × (b < lift) }
    ensures { Mod reducer.q result (difference reducer.q a b * unscale reducer.q w) × (result < 2 * reducer.q) }
{
    montgomery::product(a + (lift - b), w, reducer)
}

// The butterfly with the twiddle factors that t, u and v are the scaled forms of.
pub fn twiddled_butterfly(
    a: u32,
    b: u32,
    c: u32,
    d: u32,
    t: u32,
    u: u32,
    v: u32,
    lift: u32,
    reducer: Reducer,
) -> Values
    requires { ButterflyReady reducer.q lift a b c d × (t < reducer.q) × (u < reducer.q) × (v < reducer.q) }
    ensures { LazyButterfly reducer.q lift (unscale reducer.q t) (unscale reducer.q u) (unscale reducer.q v) a b c d
        result.zeroth result.first result.second result.third }
{
    let twice = 2 * lift;
    let e = a + c;
    let f = turned_difference(a, c, lift, t, reducer);
    let g = b + d;
    let h = turned_difference(b, d, lift, u, reducer);
    Values {
        zeroth: e + g,
        first: f + h,
        second: turned_difference(e, g, twice, v, reducer),
        third: turned_difference(f, h, twice, v, reducer),
    }
}

// The butterfly with one twiddle factor, that u is the scaled form of; the other two are 1.
// Apart from the other, which takes four products where one is enough here.
pub fn plain_butterfly(
    a: u32,
    b: u32,
    c: u32,
    d: u32,
    u: u32,
    lift: u32,
    reducer: Reducer,
) -> Values
    requires { ButterflyReady reducer.q lift a b c d × (u < reducer.q) }
    ensures { LazyButterfly reducer.q lift 1 (unscale reducer.q u) 1 a b c d result.zeroth result.first result.second result.third }
{
    let twice = 2 * lift;
    let e = a + c;
    let f = a + (lift - c);
    let g = b + d;
    let h = turned_difference(b, d, lift, u, reducer);
    Values {
        zeroth: e + g,
        first: f + h,
        second: e + (twice - g),
        third: f + (twice - h),
    }
}
