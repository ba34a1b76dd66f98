// Some bits of bytes and of words: what `packing` reads and writes place by place (003, algorithms 20, 22 and 27).
#![tactic(auto)]

ghost use Rattle.std.specs.Prelude.{◌≡◌, ◌+◌, ◌*◌, ◌/◌, ◌%◌, ◌^◌, ◌<◌, ◌≤◌};
ghost use Rattle.maths.specs.Vector.{at};

// The byte at place i, and 0 past the end.
pub fn byte_at(bytes: &[u8], i: usize) -> u32
    ensures { (result ≡ at bytes.now i) × (result < 2 ^ 8) }
{
    if i < bytes.len() { bytes[i] as u32 } else { 0 }
}

// The number whose `kept` high bits begin at a bit of a word, with zeros for its low `cmp`.
pub fn number_in(word: u32, bit: u32, kept: u32, cmp: u32) -> u32
    requires { (bit < 8) × (kept + cmp ≤ 24) }
    ensures { result ≡ word / 2 ^ bit % 2 ^ kept * 2 ^ cmp }
{
    let ones: u32 = (1 << kept) - 1;
    ((word >> bit) & ones) << cmp
}

// Bit i of a message.
pub fn bit_at(message: &[u8], i: usize) -> u32
    ensures { result ≡ at message.now (i / 8) / 2 ^ (i % 8) % 2 }
{
    (byte_at(message, i / 8) >> (i % 8)) % 2
}
