// Errors and multipliers, one at a time (specs/Small.antt).
ghost use Rattle.std.specs.Prelude.{◌≡◌, true, ◌+◌, ◌*◌, ◌/◌, ◌%◌, ◌^◌, ◌≤◌, ◌<◌, length};
ghost use Rattle.calls.specs.Region.{region};
ghost use Rattle.sets.specs.Rules.{Rules, ByteRules};
ghost use Rattle.sets.specs.Derived.{multiplier_count_of};
ghost use Rattle.maths.specs.Bytes.{little_endian};
ghost use Rattle.draws.specs.Small.{error_of_value, error_at, multiplier_of_value, signs_at_of, sign_bit, multiplier_at_of};
ghost use Rattle.draws.specs.Calls.{in_turn, lent, lent_results_of};

use sets::Parameters;

// The error that a byte gives.
pub fn error_of(byte: u8) -> i32
    ensures { result ≡ error_of_value byte }
{
    let low = u8::count_ones(byte & 15) as i32;
    let high = u8::count_ones(byte >> 4) as i32;
    low - high
}

// The low bits of a number.
fn low_bits(x: u32, bits: u32) -> u32
    requires { bits ≤ 9 }
    ensures { (result ≡ x % 2 ^ bits) × (result < 512) }
{
    x & ((1 << bits) - 1)
}

// The multiplier that a number gives, with the sign bit: its size less sign · twice its size, raised by 512 meanwhile, so that nothing is chosen by the sign.
fn multiplier_of(bits: u32, number: u32, sign: u32) -> i32
    requires { (bits ≤ 9) × (sign < 2) }
    ensures { result ≡ multiplier_of_value bits number sign }
{
    let size = low_bits(number, bits) + 1;
    (512 + size - 2 * sign * size) as i32 - 512
}

// The number of one or two bytes.
fn number_at(bytes: &[u8], at: usize, width: usize) -> u32
    requires { (1 ≤ width) × (width ≤ 2) × (at + width ≤ length bytes.now) }
    ensures { result ≡ little_endian (region bytes.now at width) }
{
    if width == 1 {
        u32::from(bytes[at])
    } else {
        u32::from_le_bytes([bytes[at], bytes[at + 1], 0, 0])
    }
}

// The sign bit at a position, with the place of the first sign byte.
fn sign_at(bytes: &[u8], signs: usize, position: usize) -> u32
    requires { signs + position / 8 < length bytes.now }
    ensures { result ≡ sign_bit bytes.now signs position }
{
    let byte = u32::from(bytes[signs + (position >> 3)]);
    (byte >> (position & 7)) & 1
}

// The place of the first sign byte.
fn signs_at(p: Parameters) -> usize
    requires { Rules p × ByteRules p }
    ensures { result ≡ signs_at_of p }
{
    sets::derived::multiplier_count(p) * sets::derived::multiplier_bytes(p)
}

// Whether the size bytes and the sign byte of a position are lent.
fn is_lent(p: Parameters, bytes: &[u8], position: usize) -> bool
    requires { Rules p × ByteRules p × (position < multiplier_count_of p) }
    ensures { result ≡ lent p bytes.now position }
{
    let width = sets::derived::multiplier_bytes(p);
    let signs = signs_at(p);
    position * width + width <= bytes.len() && signs + (position >> 3) < bytes.len()
}

// The multiplier at a position, from the bytes of one whole sealing.
pub fn multiplier_at(p: Parameters, bytes: &[u8], position: usize) -> i32
    requires { Rules p × ByteRules p × (position < multiplier_count_of p) × (lent p bytes.now position ≡ true) }
    ensures { result ≡ multiplier_at_of p bytes.now position }
{
    let width = sets::derived::multiplier_bytes(p);
    let size = number_at(bytes, position * width, width);
    let sign = sign_at(bytes, signs_at(p), position);
    multiplier_of(sets::derived::multiplier_bits(p, position), size, sign)
}

// How many results in turn, from the first position on, have their bytes lent.
pub fn lent_results(p: Parameters, bytes: &[u8], first: usize, wanted: usize) -> usize
    requires { Rules p × ByteRules p × (first + wanted ≤ multiplier_count_of p) }
    ensures { result ≡ lent_results_of p bytes.now first wanted }
{
    for i in 0..wanted {
        if !is_lent(p, bytes, first + i) {
            return i;
        }
    }
    wanted
}

// Draws the multipliers from the first position on, whose bytes are all lent.
pub fn fill_multipliers(p: Parameters, bytes: &[u8], first: usize, out: &mut [i32])
    requires { Rules p × ByteRules p × (first + length out.old ≤ multiplier_count_of p)
        × (length out.old ≤ lent_results_of p bytes.now first (length out.old)) }
    ensures { out.new ≡ in_turn (multiplier_at_of p bytes.now) first (length out.old) }
{
    for (i, multiplier) in out.iter_mut().enumerate() {
        *multiplier = multiplier_at(p, bytes, first + i);
    }
}

// Draws an error from each byte, as many as `out` holds.
pub fn fill_errors(bytes: &[u8], out: &mut [i32])
    requires { length out.old ≤ length bytes.now }
    ensures { out.new ≡ in_turn (error_at bytes.now) 0 (length out.old) }
{
    for (i, error) in out.iter_mut().enumerate() {
        *error = error_of(bytes[i]);
    }
}
