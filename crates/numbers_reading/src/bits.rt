// The bit that a residue is read as (01, Reading).
ghost use Rattle.std.specs.Prelude.{◌≡◌, ◌<◌, ◌^◌};
ghost use Rattle.maths.specs.Rounding.{floor_bit_of};
ghost use Rattle.sets.specs.Table.{set_of, IsSet};
ghost use Rattle.numbers.specs.Scheme.{rounded_bit_of};

use sets::Parameters;

// 01's formula.
fn floor_bit(h: u32, w: u32) -> u32
    requires { (0 < h) × (h < 2 ^ 24) × (w < 2 ^ 24) }
    ensures { result ≡ floor_bit_of h w }
{
    (2 * w + h) / (2 * h) % 2
}

// The bit that a set reads a residue as.
pub fn rounded_bit(set: usize, p: Parameters, w: u32) -> u32
    requires { IsSet set × (p ≡ set_of set) × (w < p.q) }
    ensures { result ≡ rounded_bit_of set p w }
{
    let h = sets::derived::half_modulus(p);
    if set == 0 {
        return floor_bit(h, w);
    }
    residues::threshold_bit(h, w)
}
