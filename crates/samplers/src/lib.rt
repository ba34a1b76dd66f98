// The draws from a seed: uniform residues block after block, errors and multipliers (003, section 2.2.3, algorithms 6 to 10; specs/Seeded.antt).
#![tactic(auto)]

ghost use Rattle.std.specs.Prelude.{◌≡◌, List, map, ℕ, ◌+◌, ◌*◌, ◌^◌, ◌≤◌, ◌<◌, length};
ghost use Rattle.maths.specs.Integer.{residue};
ghost use Rattle.sets.specs.Rules.{Rules, ByteRules};
ghost use Rattle.sets.specs.Derived.{multiplier_count_of, error_draw_bytes_of, error_count_of};
ghost use Rattle.draws.specs.Uniform.{taken};
ghost use Rattle.byte_source.specs.Source.{state_at};
ghost use Rattle.samplers.specs.Blocks.{onward, uniform, uniform_answer};
ghost use Rattle.samplers.specs.Seeded.{errors_drawn, multipliers_drawn};

use draws::DrawRefusal;
use sets::Parameters;

pub mod block;
mod small;

// What a uniform draw from a seed answers: the counter afterwards.
pub type Advance = Result<u32, DrawRefusal>;

// What one block of a uniform draw answers: how many results are there, with a run of candidates set aside since.
pub type Progress = Result<(usize, u32), DrawRefusal>;

// Draws a uniform residue for each number of `out`, from outputs of `size` bytes, the first of them with the counter `first`.
pub fn residues_from(
    p: Parameters,
    seed: &[u8],
    size: usize,
    first: u32,
    out: &mut [u32],
) -> Advance
    requires rules { Rules p × (length seed.now ≤ 65536) × (384 ≤ size) × (size ≤ 10158) }
    requires out_nonzero { (0 < length out.old) × (first + 10159 * length out.old < 2 ^ 32) }
    ensures answer { onward seed.now result
        ≡ uniform_answer p (state_at seed.now first) size (length out.old) }
    ensures result { (xs : List ℕ) →
        (uniform p (state_at seed.now first) size (length out.old)).drawn ≡ taken xs → out.new ≡ xs }
{
    let mut bytes = [0u8; 10158];
    block::residues_with_buffers(p, seed, first, &mut bytes[0..size], out)
}

// Draws all errors of one key, as residues, from the output of a counter.
pub fn errors_from(p: Parameters, seed: &[u8], counter: u32, out: &mut [u32])
    requires rules { Rules p × ByteRules p × (length seed.now ≤ 65536) × (length out.old ≡ error_count_of p) }
    requires p_bound { counter + error_draw_bytes_of p + 1 < 2 ^ 32 }
    ensures { out.new ≡ map (residue p.q) (errors_drawn p (state_at seed.now counter)) }
{
    let size = small::error_draw_bytes(p);
    let mut bytes = [0u8; 10240];
    small::errors_with_buffers(p, seed, counter, &mut bytes[0..size], out);
}

// Draws all multipliers of one sealing, as residues, from the first output of a seed.
pub fn multipliers_from(p: Parameters, seed: &[u8], out: &mut [u32])
    requires { Rules p × ByteRules p × (length seed.now ≤ 65536) × (length out.old ≡ multiplier_count_of p) }
    ensures { out.new ≡ map (residue p.q) (multipliers_drawn p seed.now) }
{
    let size = small::multiplier_draw_bytes(p);
    let mut bytes = [0u8; 15232];
    small::multipliers_with_buffers(p, seed, &mut bytes[0..size], out);
}
