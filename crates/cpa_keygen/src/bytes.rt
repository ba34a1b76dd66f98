// The bytes of a public key from its seed and its stored vectors (003, algorithm 1, lines 11 and 13).
ghost use Rattle.std.specs.Prelude.{◌≡◌, ◌++◌, ◌*◌, length};
ghost use Rattle.calls.specs.Region.{region};
ghost use Rattle.sets.specs.Table.{Listed};
ghost use Rattle.sets.specs.Rules.{ByteRules};
ghost use Rattle.sets.specs.Derived.{packed_bytes_of, public_key_bytes_of};
ghost use Rattle.packing.specs.Digits.{Digit, pack};
ghost use Rattle.scheme.specs.Answers.{work_length_of};
ghost use Rattle.cpa_keygen.specs.Held.{vectors_start_of};

use sets::Parameters;

// Writes the seed, and after it the stored vectors packed.
pub fn write_public_key(p: Parameters, seed: &[u8; 32], work: &[u32], out: &mut [u8])
    requires byte_rules { ByteRules p × Listed p × (length work.now ≡ work_length_of p) × (length out.old ≡ public_key_bytes_of p) }
    requires digit { Digit p.width (region work.now (vectors_start_of p) (p.d1 * p.t)) }
    ensures { out.new
        ≡ seed.now ++ pack p.width (packed_bytes_of (p.d1 * p.t) p.width) (region work.now (vectors_start_of p) (p.d1 * p.t)) }
{
    let start = crate::vectors::vectors_start(p);
    let end = crate::vectors::vectors_end(p);
    calls::copy_in(out, 0, seed);
    packing::pack_into(&work[start..end], p.width, &mut out[32..]);
}
