// The three steps on the numbers of an input, key, sealing and reading, and the noise.
ghost use Rattle.std.specs.Prelude.{◌≡◌, map, [], ◌∷◌, ◌<◌, ◌≤◌, ◌+ℤ◌, ◌*ℤ◌, nat_abs, length};
ghost use Rattle.numbers.specs.Scheme as scheme;
ghost use Rattle.numbers.specs.Noise as noises;
ghost use Rattle.calls.specs.Outcome.{accepted};
ghost use Rattle.claim.specs.Claim.{on_numbers, first_of, second_of, drawn};
ghost use Rattle.sheet_bench.specs.Bench.{bench, bench_public, bench_secret, bench_errors, bench_multipliers, bench_noise, bench_read};
ghost use Rattle.sheet_bench.specs.Operands.{Small, Accepted};

use crate::bytes::{copy_numbers, copy_signed};

// The sum of two products of small numbers.
fn two_products(x: i32, y: i32, u: i32, v: i32) -> i64
    requires { (nat_abs x ≤ 2) × (nat_abs y ≤ 1) × (nat_abs u ≤ 2) × (nat_abs v ≤ 1) }
    ensures { result ≡ x *ℤ y +ℤ u *ℤ v }
{
    let first = x * y;
    let second = u * v;
    (first + second) as i64
}

// The noise at place `j`.
fn noise_place(e: &[i32], r: &[i32], j: usize) -> i64
    requires { Small e.now r.now × (j < 2) }
    ensures { result ≡ noises.numbers_noise bench e.now r.now j }
{
    two_products(r[0], e[j + 1], r[1], e[j])
}

// Writes the noise at both places.
fn fill_noise(e: &[i32], r: &[i32], noise: &mut [i64])
    requires { Small e.now r.now × (length noise.old ≡ 2) }
    ensures { noise.new ≡ map (noises.numbers_noise bench e.now r.now) (0 ∷ 1 ∷ []) }
{
    noise[0] = noise_place(e, r, 0);
    noise[1] = noise_place(e, r, 1);
}

// Takes the three steps, with slices for the key and the parts of the sealing.
fn read_with_buffers(
    a: &[u32],
    s: &[u32],
    e: &[i32],
    r: &[i32],
    m: &[u32],
    b: &mut [u32],
    c1: &mut [u32],
    c2: &mut [u32],
    read: &mut [u32],
)
    requires { (drawn 0 (on_numbers a.now s.now e.now r.now m.now) ≡ accepted)
        × (length b.old ≡ 3) × (length c1.old ≡ 3) × (length c2.old ≡ 2) × (length read.old ≡ 2) }
    ensures { read.new ≡ scheme.reading 0 bench (first_of 0 a.now r.now)
        (second_of 0 a.now s.now e.now r.now m.now) s.now }
{
    // none is refused, as the function requires
    let _ = numbers_key::key(0, a, s, e, b);
    let _ = numbers_sealing::sealing(0, a, b, r, m, c1, c2);
    let _ = numbers_reading::reading(0, c1, c2, s, read);
}

// The same with arrays of its own for them.
fn read_bits(a: &[u32], s: &[u32], e: &[i32], r: &[i32], m: &[u32], read: &mut [u32])
    requires { (drawn 0 (on_numbers a.now s.now e.now r.now m.now) ≡ accepted) × (length read.old ≡ 2) }
    ensures { read.new ≡ scheme.reading 0 bench (first_of 0 a.now r.now)
        (second_of 0 a.now s.now e.now r.now m.now) s.now }
{
    let mut b: [u32; 3] = [0; 3];
    let mut c1: [u32; 3] = [0; 3];
    let mut c2: [u32; 2] = [0; 2];
    read_with_buffers(
        a,
        s,
        e,
        r,
        m,
        &mut b[0..3],
        &mut c1[0..3],
        &mut c2[0..2],
        read,
    );
}

// Copies the numbers of an input into slices of their own.
fn copy_parts(input: &[u8], a: &mut [u32], s: &mut [u32], e: &mut [i32], r: &mut [i32])
    requires { (length input.now ≡ 14) × (length a.old ≡ 2) × (length s.old ≡ 4) × (length e.old ≡ 3) × (length r.old ≡ 2) }
    ensures { (a.new ≡ bench_public input.now) × (s.new ≡ bench_secret input.now)
        × (e.new ≡ bench_errors input.now) × (r.new ≡ bench_multipliers input.now) }
{
    copy_numbers(input, 1, a);
    copy_numbers(input, 3, s);
    copy_signed(input, 7, e);
    copy_signed(input, 10, r);
}

// Writes noise and bits, with slices for the numbers of the input.
fn take_steps_with_buffers(
    input: &[u8],
    message: &[u32],
    a: &mut [u32],
    s: &mut [u32],
    e: &mut [i32],
    r: &mut [i32],
    noise: &mut [i64],
    read: &mut [u32],
)
    requires { Accepted input.now message.now × (length a.old ≡ 2) × (length s.old ≡ 4) × (length e.old ≡ 3) × (length r.old ≡ 2)
        × (length noise.old ≡ 2) × (length read.old ≡ 2) }
    ensures { (noise.new ≡ bench_noise input.now) × (read.new ≡ bench_read input.now) }
{
    copy_parts(input, a, s, e, r);
    fill_noise(e, r, noise);
    read_bits(a, s, e, r, message, read);
}

// The noise and the bits read of an input in range, whose message bits are lent.
pub fn take_steps(input: &[u8], message: &[u32], noise: &mut [i64], read: &mut [u32])
    requires { Accepted input.now message.now × (length noise.old ≡ 2) × (length read.old ≡ 2) }
    ensures { (noise.new ≡ bench_noise input.now) × (read.new ≡ bench_read input.now) }
{
    let mut a: [u32; 2] = [0; 2];
    let mut s: [u32; 4] = [0; 4];
    let mut e: [i32; 3] = [0; 3];
    let mut r: [i32; 2] = [0; 2];
    take_steps_with_buffers(
        input,
        message,
        &mut a[0..2],
        &mut s[0..4],
        &mut e[0..3],
        &mut r[0..2],
        noise,
        read,
    );
}
