// The bytes of an input: whether each is in range, and the numbers that they stand for.
ghost use Rattle.std.specs.Prelude.{◌≡◌, ◌&&◌, map, ◌+◌, ◌≤◌, leb, nat_abs, length};
ghost use Rattle.calls.specs.Checks.{passing};
ghost use Rattle.calls.specs.Region.{region};
ghost use Rattle.sheet_bench.specs.Bench.{signed, bench_fits};

// The whole number that a byte stands for in two's complement.
fn signed(byte: u8) -> i32
    ensures { result ≡ signed byte }
{
    let number = byte as i32;
    if byte < 128 {
        return number;
    }
    number - 256
}

// Its size.
fn size(byte: u8) -> u8
    ensures { result ≡ nat_abs (signed byte) }
{
    if byte < 128 {
        return byte;
    }
    255 - byte + 1
}

// Whether a byte stands for a multiplier: not 0, and of size at most 2.
fn is_multiplier(byte: u8) -> bool
    ensures { result ≡ leb 1 (nat_abs (signed byte)) && leb (nat_abs (signed byte)) 2 }
{
    let size = size(byte);
    if size < 1 {
        return false;
    }
    size <= 2
}

// Whether the byte at a place is in range: residues are below 17, and errors of size at most 1.
fn fits(place: usize, byte: u8) -> bool
    ensures { result ≡ bench_fits place byte }
{
    if place < 1 {
        return true;
    }
    if place < 7 {
        return byte < 17;
    }
    if place < 10 {
        return size(byte) <= 1;
    }
    if place < 12 {
        return is_multiplier(byte);
    }
    byte < 2
}

// The place of the first byte out of range, or the length where there is none, as `passing` counts.
pub fn first_unfit(input: &[u8]) -> usize
    ensures { result ≡ passing bench_fits 0 input.now }
{
    for (i, byte) in input.iter().enumerate() {
        if !fits(i, *byte) {
            return i;
        }
    }
    input.len()
}

// Fills `out` with the numbers from `from` on.
pub fn copy_numbers(input: &[u8], from: usize, out: &mut [u32])
    requires { from + length out.old ≤ length input.now }
    ensures { out.new ≡ region input.now from (length out.old) }
{
    for (i, number) in out.iter_mut().enumerate() {
        *number = u32::from(input[from + i]);
    }
}

// Fills `out` with the whole numbers in two's complement from `from` on. Not one function with `copy_numbers`: a closure or a trait for the two conversions,
// with what they mean in the clauses, is longer than two loops of one line.
pub fn copy_signed(input: &[u8], from: usize, out: &mut [i32])
    requires { from + length out.old ≤ length input.now }
    ensures { out.new ≡ map signed (region input.now from (length out.old)) }
{
    for (i, number) in out.iter_mut().enumerate() {
        *number = signed(input[from + i]);
    }
}
