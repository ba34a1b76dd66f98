// What the calls read and make stands in one store, so that every function takes one slice. Each part has one byte more than the largest of its kind.
use report::script::Line;
use report::{Hex, random};
use std::io;

// Where the key seed, the sealing seed, the message, the public key, the secret key, the ciphertext, what an opening gave and the sender's shared key begin;
// before the key seed is room for the number of a set, with which the inputs of a sheet begin, and behind what an opening gave for bytes of the script.
pub const SEED: usize = 1;

pub const SEALING: usize = 33;

pub const MESSAGE: usize = 65;

pub const PUBLIC: usize = 98;

pub const SECRET: usize = 27011;

pub const SEALED: usize = 53956;

pub const OPENED: usize = 62309;

pub const SHARED: usize = 62406;

pub const END: usize = 62439;

// Puts bytes of the line, at most 13, at a place.
pub fn put(line: Line, store: &mut [u8]) {
    let [place, count, ..] = line.operands;
    let part = report::part_mut(store, place, count);
    for (byte, value) in part.iter_mut().zip(&line.operands[2..]) {
        *byte = report::low_byte(*value);
    }
}

// Keeps the first n bytes of what a call left in bytes of its own.
pub fn keep(store: &mut [u8], from: usize, n: usize, bytes: &[u8]) {
    report::repeat(report::part_mut(store, from, n), bytes);
}

// Fills a part of the store with the random bytes of a group and a slice.
pub fn fill_random(line: Line, store: &mut [u8]) {
    let [place, count, group, slice, ..] = line.operands;
    random::fill(report::part_mut(store, place, count), group, slice);
}

// Fills a part of the store with the bytes of another, at most 32, again and again.
pub fn repeat(line: Line, store: &mut [u8]) {
    let [place, count, from, period, ..] = line.operands;
    let mut bytes = [0u8; 32];
    report::repeat(&mut bytes, report::part(store, from, period));
    report::repeat(
        report::part_mut(store, place, count),
        report::front(&bytes, period),
    );
}

// Changes bits of the byte at a place that the store has: those that `bits` has.
pub fn flip(store: &mut [u8], place: usize, bits: u8) {
    if let Some(byte) = store.get_mut(place) {
        *byte ^= bits;
    }
}

// Prints 32 bytes of SHAKE256 of bytes in hexadecimal, and ends the line.
pub fn print_digest(rt: &impl Print, bytes: &[u8]) -> io::Result<()> {
    let mut out = [0u8; 32];
    sponge::shake256_into(bytes, &mut out);
    println!(rt; " {}", Hex(&out))
}
