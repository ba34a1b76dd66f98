// The plain middle product, and key, sealing and reading on numbers as functions for callers in C (include/titanium.h).
#![tactic(auto)]

ghost use Rattle.std.specs.Prelude.{◌≡◌, length};
ghost use Rattle.middle.specs.Calls.{middle_answer, middle_left};
ghost use Rattle.numbers.specs.Calls.{key_answer, key_left, sealing_answer, first_part_left, second_part_left, reading_answer, reading_left};
ghost use Rattle.c_answer.specs.Coded.{coded};

use c_answer::code;

// The plain middle product.
#[unsafe(no_mangle)]
pub extern "C" fn titanium_middle_product(set: usize, a: &[u32], b: &[u32], out: &mut [u32]) -> u64
    ensures answer { result ≡ coded (middle_answer set a.now b.now (length out.old)) }
    ensures left { out.new ≡ middle_left set a.now b.now out.old }
{
    code(middle::middle_product(set, a, b, out))
}

// Key on numbers.
#[unsafe(no_mangle)]
pub extern "C" fn titanium_key_of_numbers(
    set: usize,
    a: &[u32],
    s: &[u32],
    e: &[i32],
    b: &mut [u32],
) -> u64
    ensures answer { result ≡ coded (key_answer set a.now s.now e.now (length b.old)) }
    ensures left { b.new ≡ key_left set a.now s.now e.now b.old }
{
    code(numbers_key::key(set, a, s, e, b))
}

// Sealing on numbers.
#[unsafe(no_mangle)]
pub extern "C" fn titanium_sealing_of_numbers(
    set: usize,
    a: &[u32],
    b: &[u32],
    r: &[i32],
    message: &[u32],
    c1: &mut [u32],
    c2: &mut [u32],
) -> u64
    ensures answer { result ≡ coded (sealing_answer set a.now b.now r.now message.now
        (length c1.old) (length c2.old)) }
    ensures first { c1.new ≡ first_part_left set a.now b.now r.now message.now
        c1.old (length c2.old) }
    ensures second { c2.new ≡ second_part_left set a.now b.now r.now message.now
        (length c1.old) c2.old }
{
    code(numbers_sealing::sealing(set, a, b, r, message, c1, c2))
}

// Reading on numbers.
#[unsafe(no_mangle)]
pub extern "C" fn titanium_reading_of_numbers(
    set: usize,
    c1: &[u32],
    c2: &[u32],
    s: &[u32],
    bits: &mut [u32],
) -> u64
    ensures answer { result ≡ coded (reading_answer set c1.now c2.now s.now (length bits.old)) }
    ensures left { bits.new ≡ reading_left set c1.now c2.now s.now bits.old }
{
    code(numbers_reading::reading(set, c1, c2, s, bits))
}
