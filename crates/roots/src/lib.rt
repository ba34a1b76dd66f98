// The powers of the roots of unity of every set: which table serves which set. The tables stand in the crates roots_bench to roots_super256.
#![tactic(auto)]

ghost use Rattle.std.specs.Prelude.{◌≡◌, length};
ghost use Rattle.sets.specs.Table.{IsSet, Listed, set_of};
ghost use Rattle.sets.specs.Derived.{transform_size_of, root_powers};

use sets::Parameters;

// The table that serves a set, for its root number i.
fn powers_of_set(set: usize, i: usize) -> &'static [u32]
    requires { IsSet set }
    ensures { result.now ≡ root_powers (set_of set) i }
{
    match set {
        0 => roots_bench::powers(),
        1 | 7 => roots_toy64::powers(set, i),
        2 | 8 => roots_lite96::powers(set, i),
        3 | 9 => roots_std128::powers(set, i),
        4 | 10 => roots_med160::powers(set, i),
        5 | 11 => roots_hi192::powers(set, i),
        _ => roots_super256::powers(set, i),
    }
}

// The powers of root number i of a set: place j holds the root to the power j, modulo q.
pub fn powers(p: Parameters, i: usize) -> &'static [u32]
    requires { Listed p }
    ensures { result.now ≡ root_powers p i }
{
    powers_of_set(p.roots, i)
}

// Fills `out` with these powers.
pub fn load_powers(p: Parameters, i: usize, out: &mut [u32])
    requires { Listed p × (length out.old ≡ transform_size_of p i) }
    ensures { out.new ≡ root_powers p i }
{
    calls::copy_in(out, 0, powers(p, i));
}
