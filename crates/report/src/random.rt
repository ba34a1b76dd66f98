// Random numbers for rounds of random calls, the same for each run: a number is found from where it is wanted, so it rests on no answer.
ghost use Rattle.std.specs.Prelude.{◌<◌};

use std::cmp::Ordering;

// A number of 31 bits times one more than its double, modulo 2^31: no sum of such numbers tells the next one.
fn squared(x: u64) -> u64
    requires { x < 2147483648 }
    ensures { result < 2147483648 }
{
    x * (2 * x + 1) % 2147483648
}

// A number of 31 bits squared so, with its upper 16 bits and its lower 15 exchanged, so that the lower ones are mixed too.
fn mixed(x: u64) -> u64
    requires { x < 2147483648 }
    ensures { result < 2147483648 }
{
    let y = squared(x);
    (y / 32768 + (y % 32768) * 65536) % 2147483648
}

// Where number `i` for slice `slice` of a group of calls begins.
fn start(group: usize, slice: usize, i: usize) -> u64
    ensures { result < 2147483648 }
{
    ((i % 65536 * 32768 + slice % 32 * 1024 + group % 1024) % 2147483648) as u64
}

// Number `i` for slice `slice` of a group of calls, of 24 bits.
fn number(group: usize, slice: usize, i: usize) -> usize
    ensures { result < 16777216 }
{
    let first = crate::after(mixed(crate::after(start(group, slice, i))));
    (crate::after(mixed(first)) / 128 % 16777216) as usize
}

// Fills values with what `value_of` makes of such numbers.
pub fn fill_with<T: Drop, F: Fn(usize) -> T>(
    values: &mut [T],
    group: usize,
    slice: usize,
    value_of: F,
)
    requires { F.IsAlwaysCallable value_of }
{
    for (i, value) in values.iter_mut().enumerate() {
        *value = value_of(number(group, slice, i));
    }
}

// Fills bytes.
pub fn fill(values: &mut [u8], group: usize, slice: usize) {
    fill_with(values, group, slice, crate::low_byte);
}

// The residue of a number modulo q.
pub fn residue(x: usize, q: u32) -> u32 {
    ((x % 16777216) as u32).checked_rem(q).unwrap_or(0)
}

// Fills numbers with residues modulo q.
pub fn fill_residues(values: &mut [u32], group: usize, slice: usize, q: u32) {
    fill_with(values, group, slice, |x| residue(x, q));
}

// A number of at most 4,095 with a minus sign.
pub fn negative(x: usize) -> i32 {
    -((x % 4096) as i32)
}

// A signed number of at most a size, made from a number; `zero` stands for 0.
pub fn around(x: usize, size: usize, zero: i32) -> i32 {
    let bound = size % 1024;
    let shifted = x % (2 * bound + 1);
    match shifted.cmp(&bound) {
        Ordering::Less => negative(bound - shifted),
        Ordering::Equal => zero,
        Ordering::Greater => ((shifted - bound) % 4096) as i32,
    }
}

// Fills numbers with signed ones of at most a size; `zero` stands for 0.
pub fn fill_signed(values: &mut [i32], group: usize, slice: usize, size: usize, zero: i32) {
    fill_with(values, group, slice, |x| around(x, size, zero));
}
