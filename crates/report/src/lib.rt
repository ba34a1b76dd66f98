// What the programs that run known answers print and fill: numbers, bytes in hexadecimal, answers of open calls, checksums of long outputs, and patterns.
#![tactic(auto)]

ghost use Rattle.std.specs.Prelude.{ℕ, ◌<◌, ◌≤◌, length, get_or};

use calls::Answer;
use std::fmt::Display;
use std::{fmt, io};

pub mod random;
pub mod script;

// Numbers, each after a space.
#[derive(Drop)]
pub struct Spaced<'a, T>(pub &'a [T]);

impl<T: Display> Display for Spaced<'_, T> {
    fn fmt<W: fmt::Write>(&self, f: &mut fmt::Formatter<W>) -> fmt::Result {
        for number in self.0 {
            write!(f, " {number}")?;
        }
        Ok(())
    }
}

// Bytes, each as two hexadecimal digits.
#[derive(Drop)]
pub struct Hex<'a>(pub &'a [u8]);

impl Display for Hex<'_> {
    fn fmt<W: fmt::Write>(&self, f: &mut fmt::Formatter<W>) -> fmt::Result {
        for byte in self.0 {
            write!(f, "{byte:02x}")?;
        }
        Ok(())
    }
}

// Prints the answer of an open call: done, or refused with its number and place.
pub fn answer(rt: &impl Print, given: Answer) -> io::Result<()> {
    match given {
        Ok(()) => print!(rt; " done"),
        Err(refusal) => print!(rt; " refused {} {}", refusal.number(), refusal.place()),
    }
}

// Prints the name of a call, its set, and which lengths were changed.
pub fn call(rt: &impl Print, name: &[u8], set: usize, change: usize) -> io::Result<()> {
    rt.write_all(name)?;
    print!(rt; " {set} {change}")
}

// Prints the name of a call, the numbers that it was told, and its answer.
pub fn call_and_answer(
    rt: &impl Print,
    name: &str,
    numbers: &[usize],
    given: Answer,
) -> io::Result<()> {
    print!(rt; "{name}{}", Spaced(numbers))?;
    answer(rt, given)
}

// What a checksum covers: a value that a number of 32 bits stands for.
pub trait Summand {
    fn summand(&self) -> u32;
}

impl Summand for u8 {
    fn summand(&self) -> u32 {
        u32::from(*self)
    }
}

impl Summand for u32 {
    fn summand(&self) -> u32 {
        *self
    }
}

// A signed number is raised by 2^24, so that it has no sign; one of a size above 1,000, which no error and no multiplier has, counts as 0.
impl Summand for i32 {
    fn summand(&self) -> u32 {
        match *self {
            -1000..=1000 => (*self + 16777216) as u32,
            _ => 0,
        }
    }
}

// The checksum of one number more: a polynomial modulo the prime 2^32 - 5.
fn summed(sum: u64, x: u32) -> u64
    requires { sum < 4294967291 }
    ensures { result < 4294967291 }
{
    (sum * 65599 + u64::from(x) + 1) % 4294967291
}

// The checksum of values.
pub fn checksum<T: Summand>(values: &[T]) -> u64
    ensures { result < 4294967291 }
{
    let mut sum = 0;
    for value in values {
        sum = summed(sum, value.summand());
    }
    sum
}

// Fills bytes with a pattern: none of them is above 198, so that three of them are never a candidate that a draw sets aside.
pub fn fill_bytes(values: &mut [u8], start: usize) {
    for (i, value) in values.iter_mut().enumerate() {
        *value = ((start % 199 + 13 * (i % 199)) % 199) as u8;
    }
}

// Fills values with others, again and again; a copy where there are as many.
pub fn repeat<T: Copy>(values: &mut [T], others: &[T]) {
    for (value, other) in values.iter_mut().zip(others.iter().cycle()) {
        *value = *other;
    }
}

// The number after x in the generator of inputs.
pub fn after(x: u64) -> u64
    requires { x < 2147483648 }
    ensures { result < 2147483648 }
{
    (x * 1103515245 + 12345) % 2147483648
}

// Fills numbers with residues from the generator, which goes on from `start`.
pub fn fill_residues(values: &mut [u32], start: u64, q: u32)
    requires { (start < 2147483648) × (0 < q) }
    ensures { (i : ℕ) → i < length values.new → get_or values.new i 0 < q }
{
    let mut x = start;
    for value in values.iter_mut() {
        x = after(x);
        *value = residues::reduce(x, q);
    }
}

// The lowest eight bits of a number.
pub fn low_byte(x: usize) -> u8 {
    (x % 256) as u8
}

// Where a part of n entries from a place on begins and ends in a slice of this length; a part that does not fit ends with the slice.
fn bounds(length: usize, from: usize, n: usize) -> (usize, usize)
    ensures { (result.0 ≤ result.1) × (result.1 ≤ length) }
{
    let start = from.min(length);
    (start, start + n.min(length - start))
}

// The n values from a place on, or as many as there are: so a program needs no proof of lengths.
pub fn part<T>(values: &[T], from: usize, n: usize) -> &[T] {
    let (start, end) = bounds(values.len(), from, n);
    &values[start..end]
}

// The same of values to be written.
pub fn part_mut<T>(values: &mut [T], from: usize, n: usize) -> &mut [T] {
    let (start, end) = bounds(values.len(), from, n);
    &mut values[start..end]
}

// The first n values, or as many as there are.
pub fn front<T>(values: &[T], n: usize) -> &[T] {
    part(values, 0, n)
}

// The same of values to be written.
pub fn front_mut<T>(values: &mut [T], n: usize) -> &mut [T] {
    part_mut(values, 0, n)
}
