// SHAKE256 of FIPS 202, and KMAC256 and KMACXOF256 of SP 800-185, on bytes.
#![tactic(auto)]

ghost use Rattle.std.specs.Prelude.{◌≡◌, ◌++◌, ◌≤◌, length};
ghost use Rattle.sponge.specs.Sponge.{shake256};
ghost use Rattle.sponge.specs.Kmac.{kmac256, kmacxof256};

mod block;
mod feed;
mod kmac;
mod lanes;
mod squeeze;
mod state;

use state::Sponge;

// SHAKE256 of `input`.
pub fn shake256_into(input: &[u8], out: &mut [u8])
    ensures { out.new ≡ shake256 input.now (length out.old) }
{
    let mut sponge = Sponge::new();
    sponge.feed(input);
    sponge.finish(0x1f, out);
}

// SHAKE256 of two slices, one after the other.
pub fn shake256_of_two(first: &[u8], second: &[u8], out: &mut [u8])
    ensures { out.new ≡ shake256 (first.now ++ second.now) (length out.old) }
{
    let mut sponge = Sponge::new();
    sponge.feed(first);
    sponge.feed(second);
    sponge.finish(0x1f, out);
}

// KMAC256: the output's length is part of what is hashed.
pub fn kmac256_into(key: &[u8], input: &[u8], customization: &[u8], out: &mut [u8])
    requires { (length key.now ≤ 65536) × (length customization.now ≤ 65536) × (length out.old ≤ 65536) }
    ensures { out.new ≡ kmac256 key.now input.now customization.now (length out.old) }
{
    let bits = 8 * out.len() as u32;
    kmac::kmac(key, input, customization, bits, out);
}

// KMACXOF256: an output of any length.
pub fn kmacxof256_into(key: &[u8], input: &[u8], customization: &[u8], out: &mut [u8])
    requires { (length key.now ≤ 65536) × (length customization.now ≤ 65536) }
    ensures { out.new ≡ kmacxof256 key.now input.now customization.now (length out.old) }
{
    kmac::kmac(key, input, customization, 0, out);
}
