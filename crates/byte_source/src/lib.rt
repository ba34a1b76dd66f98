// The byte source PRG (specs/Source.antt).
#![tactic(auto)]

ghost use Rattle.std.specs.Prelude.{◌≡◌, ◌+◌, ◌^◌, ◌≤◌, ◌<◌, length};
ghost use Rattle.byte_source.specs.Source.{state_at, output};

use sets::Parameters;

// Fills `out` with the next output of a seed and a counter, and gives the counter of the output after it.
pub fn source_bytes(p: Parameters, seed: &[u8], counter: u32, out: &mut [u8]) -> u32
    requires { (length seed.now ≤ 65536) × (counter + length out.old + 1 < 2 ^ 32) }
    ensures state { state_at seed.now result ≡ (output p (state_at seed.now counter) (length out.old)).next }
    ensures bytes { out.new ≡ (output p (state_at seed.now counter) (length out.old)).bytes }
{
    let input = counter.to_le_bytes();
    sponge::kmacxof256_into(seed, &input, &[], out);
    counter + 1
}
