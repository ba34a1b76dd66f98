// The powers of the roots of set 0. Written by root_tables, not by hand.
#![tactic(auto)]

ghost use Rattle.std.specs.Prelude.{◌≡◌};
ghost use Rattle.maths.specs.Root.{power_table};

// The powers of 4 modulo 17.
static POWERS0_FIRST: [u32; 4] = [1, 4, 16, 13];

// The powers of the root of set 0, of which it has one.
pub fn powers() -> &'static [u32]
    ensures { result.now ≡ power_table 17 4 4 }
{
    &POWERS0_FIRST
}
