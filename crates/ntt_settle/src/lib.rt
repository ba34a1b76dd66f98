// Numbers that were kept below small multiples of q become residues: what a transform ends with.
#![tactic(auto)]

ghost use Rattle.std.specs.Prelude.{◌≡◌, ◌*◌, ◌%◌, ◌<◌, length};
ghost use Rattle.maths.specs.Vector.{at, tabulate};
ghost use Rattle.montgomery.specs.Scaled.{unscale};

use montgomery::Reducer;

// The residue of any number of 32 bits times the number that `by` is the scaled form of.
pub fn settle_number(x: u32, by: u32, reducer: Reducer) -> u32
    requires { by < reducer.q }
    ensures { result ≡ x * unscale reducer.q by % reducer.q }
{
    let product = montgomery::product(x, by, reducer);
    let residue = residues::reduce_once(product, reducer.q);
    residue
}

// Makes residues of all numbers, each times the number that `by` is the scaled form of.
pub fn settle(x: &mut [u32], by: u32, reducer: Reducer)
    requires { by < reducer.q }
    ensures { x.new ≡ tabulate (length x.old) (λ i. at x.old i * unscale reducer.q by % reducer.q) }
{
    for number in x.iter_mut() {
        *number = settle_number(*number, by, reducer);
    }
}
