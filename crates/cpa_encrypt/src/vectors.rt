// A multiplier polynomial as both parts of a ciphertext take it: copied out of all multipliers and sent in scaled form, so that each product with it is
// one Montgomery step.
ghost use Rattle.std.specs.Prelude.{◌≡◌, ◌+◌, ◌<◌, length};
ghost use Rattle.calls.specs.Region.{vector};
ghost use Rattle.sets.specs.Table.{Listed};
ghost use Rattle.sets.specs.Derived.{transform_size_of};
ghost use Rattle.ntt_products.specs.Placed.{RootTables, SentScaled};
ghost use Rattle.cpa_encrypt.specs.Parts.{Multipliers};

use sets::Parameters;

// Sends multiplier polynomial `i` with root number `number` of a set and leaves it in scaled form.
pub fn send_multipliers(
    p: Parameters,
    number: usize,
    tables: &[u32],
    multipliers: &[u32],
    i: usize,
    x: &mut [u32],
)
    requires { Listed p × RootTables p number tables.now × Multipliers p multipliers.now × (i < p.t) × (length x.old ≡ transform_size_of p number) }
    ensures { SentScaled p number (vector (p.k + 1) multipliers.now i) x.new }
{
    let n = p.k + 1;
    let from = n * i;
    let end = from + n;
    calls::copy_in(x, 0, &multipliers[from..end]);
    ntt_products::send_first_scaled(p, number, tables, x, n);
}
