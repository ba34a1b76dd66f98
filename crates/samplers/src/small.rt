// Errors and multipliers from the bytes of a seed, as residues (specs/Seeded.antt).
ghost use Rattle.std.specs.Prelude.{◌≡◌, map, ◌+◌, ◌^◌, ◌≤◌, ◌<◌, length};
ghost use Rattle.maths.specs.Integer.{residue};
ghost use Rattle.sets.specs.Rules.{Rules, ByteRules};
ghost use Rattle.sets.specs.Derived.{multiplier_count_of, multiplier_draw_bytes_of, error_draw_bytes_of, error_count_of};
ghost use Rattle.draws.specs.Small.{error_at, multiplier_at_of};
ghost use Rattle.byte_source.specs.Source.{state_at};
ghost use Rattle.samplers.specs.Seeded.{errors_of, errors_drawn, multipliers_of, multipliers_drawn};

use sets::Parameters;

// The bytes that all errors of one key are drawn from.
pub fn error_draw_bytes(p: Parameters) -> usize
    requires { Rules p × ByteRules p }
    ensures { result ≡ error_draw_bytes_of p }
{
    p.t * (p.d + p.k + 1)
}

// The error that a byte gives, as a residue.
fn error_residue(bytes: &[u8], at: usize, q: u32) -> u32
    requires { (4 < q) × (q < 2 ^ 24) × (at < length bytes.now) }
    ensures { result ≡ residue q (error_at bytes.now at) }
{
    residues::of_small(draws::small::error_of(bytes[at]), q)
}

// All errors of one key, row after row: the byte after those of a row is not used, so that error i of row r takes byte i + r.
fn fill_errors(p: Parameters, bytes: &[u8], out: &mut [u32])
    requires { Rules p × ByteRules p × (length bytes.now ≡ error_draw_bytes_of p) × (length out.old ≡ error_count_of p) }
    ensures { out.new ≡ map (residue p.q) (errors_of p bytes.now) }
{
    let row = p.d + p.k;
    for r in 0..p.t {
        for i in r * row..r * row + row {
            out[i] = error_residue(bytes, i + r, p.q);
        }
    }
}

// All errors of one key, whose bytes are read into `bytes`.
pub fn errors_with_buffers(
    p: Parameters,
    seed: &[u8],
    counter: u32,
    bytes: &mut [u8],
    out: &mut [u32],
)
    requires rules { Rules p × ByteRules p × (length seed.now ≤ 65536) × (counter + error_draw_bytes_of p + 1 < 2 ^ 32) }
    requires bytes_len { (length bytes.old ≡ error_draw_bytes_of p) × (length out.old ≡ error_count_of p) }
    ensures { out.new ≡ map (residue p.q) (errors_drawn p (state_at seed.now counter)) }
{
    byte_source::source_bytes(p, seed, counter, bytes);
    fill_errors(p, bytes, out);
}

// The bytes that all multipliers of one sealing are drawn from.
pub fn multiplier_draw_bytes(p: Parameters) -> usize
    requires { Rules p × ByteRules p }
    ensures { result ≡ multiplier_draw_bytes_of p }
{
    let count = sets::derived::multiplier_count(p);
    let width = sets::derived::multiplier_bytes(p);
    count * width + count / 8
}

// The multiplier at a position.
fn multiplier_residue(p: Parameters, bytes: &[u8], position: usize) -> u32
    requires { Rules p × ByteRules p × (length bytes.now ≡ multiplier_draw_bytes_of p) × (position < multiplier_count_of p) }
    ensures { result ≡ residue p.q (multiplier_at_of p bytes.now position) }
{
    residues::of_small(draws::small::multiplier_at(p, bytes, position), p.q)
}

// All multipliers of one sealing.
fn fill_multipliers(p: Parameters, bytes: &[u8], out: &mut [u32])
    requires { Rules p × ByteRules p × (length bytes.now ≡ multiplier_draw_bytes_of p) × (length out.old ≡ multiplier_count_of p) }
    ensures { out.new ≡ map (residue p.q) (multipliers_of p bytes.now) }
{
    for (i, residue) in out.iter_mut().enumerate() {
        *residue = multiplier_residue(p, bytes, i);
    }
}

// All multipliers of one sealing, whose bytes are read into `bytes`.
pub fn multipliers_with_buffers(p: Parameters, seed: &[u8], bytes: &mut [u8], out: &mut [u32])
    requires rules { Rules p × ByteRules p × (length seed.now ≤ 65536) }
    requires bytes_len { (length bytes.old ≡ multiplier_draw_bytes_of p) × (length out.old ≡ multiplier_count_of p) }
    ensures { out.new ≡ map (residue p.q) (multipliers_drawn p seed.now) }
{
    byte_source::source_bytes(p, seed, 0, bytes);
    fill_multipliers(p, bytes, out);
}
