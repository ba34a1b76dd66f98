// The transforms, which are no open calls, under plain C names, for the benchmark that sets them beside the Rust comparison (bench/).
#![tactic(auto)]

ghost use Rattle.std.specs.Prelude.{◌≡◌, ◌≤◌, length, take};
ghost use Rattle.sets.specs.Table.{set_of, IsSet};
ghost use Rattle.sets.specs.Derived.{transform_size_of};
ghost use Rattle.ntt_products.specs.Stored.{sent, recovered};
ghost use Rattle.ntt_products.specs.Placed.{Placed, table_length_of, RootTables, InverseTables};

use ntt_products::WhichRoot;

// How many places the tables of transform number i of a set have.
#[unsafe(no_mangle)]
pub extern "C" fn measured_table_length(set: usize, i: usize) -> usize
    requires { IsSet set }
    ensures { result ≡ table_length_of (set_of set) i }
{
    ntt_products::table_length(sets::parameters_of(set), i)
}

// The tables of root number i of a set.
#[unsafe(no_mangle)]
pub extern "C" fn measured_tables(set: usize, i: usize, out: &mut [u32])
    requires { IsSet set × (length out.old ≡ table_length_of (set_of set) i) }
    ensures { RootTables (set_of set) i out.new }
{
    ntt_products::load_tables(sets::parameters_of(set), i, WhichRoot::Own, out);
}

// The tables of its inverse; a function of its own, since the C interface of the benchmark has a name for each.
#[unsafe(no_mangle)]
pub extern "C" fn measured_inverse_tables(set: usize, i: usize, out: &mut [u32])
    requires { IsSet set × (length out.old ≡ table_length_of (set_of set) i) }
    ensures { InverseTables (set_of set) i out.new }
{
    ntt_products::load_tables(sets::parameters_of(set), i, WhichRoot::Inverse, out);
}

// The transform of the first n numbers.
#[unsafe(no_mangle)]
pub extern "C" fn measured_send(set: usize, i: usize, tables: &[u32], x: &mut [u32], n: usize)
    requires { IsSet set × RootTables (set_of set) i tables.now × Placed (set_of set) i n x.old }
    ensures { x.new ≡ sent (set_of set) i (take n x.old) }
{
    ntt_products::send_first(sets::parameters_of(set), i, tables, x, n);
}

// The first m numbers of the inverse transform.
#[unsafe(no_mangle)]
pub extern "C" fn measured_recover(set: usize, i: usize, tables: &[u32], x: &mut [u32], m: usize)
    requires { IsSet set × InverseTables (set_of set) i tables.now × Placed (set_of set) i (transform_size_of (set_of set) i) x.old
        × (m ≤ transform_size_of (set_of set) i) }
    ensures { take m x.new ≡ recovered (set_of set) i m x.old }
{
    ntt_products::recover_first(sets::parameters_of(set), i, tables, x, m);
}
