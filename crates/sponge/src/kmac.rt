// The encodings of SP 800-185, and what KMAC256 and KMACXOF256 share.
ghost use Rattle.std.specs.Prelude.{◌≡◌, ◌++◌, ◌^◌, ◌<◌, ◌≤◌, length, drop};
ghost use Rattle.std.specs.Int.{w32, to_be_bytes};
ghost use Rattle.sponge.specs.Kmac.{base256, left_encode, right_encode, encode_string, bytepad, kmac_of};
ghost use Rattle.sponge.specs.Taken.{TakesIn};

use crate::state::Sponge;

// The first digit of a number among its four bytes, the highest of them first: no zero stands in front of the digits, but for 0 itself.
fn first_digit(x: u32) -> usize
    requires { x < 2 ^ 24 }
    ensures { (result < 4) × (drop result (to_be_bytes w32 x) ≡ base256 255 x) }
{
    if x < 0x100 {
        3
    } else if x < 0x1_0000 {
        2
    } else {
        1
    }
}

impl Sponge {
    // Takes left_encode(x) in.
    fn feed_left(&mut self, x: u32)
        requires { x < 2 ^ 24 }
        ensures { TakesIn self.old (left_encode x) self.new }
    {
        let first = first_digit(x);
        self.feed(&[4 - first as u8]);
        self.feed(&x.to_be_bytes()[first..4]);
    }

    // Takes right_encode(x) in.
    fn feed_right(&mut self, x: u32)
        requires { x < 2 ^ 24 }
        ensures { TakesIn self.old (right_encode x) self.new }
    {
        let first = first_digit(x);
        self.feed(&x.to_be_bytes()[first..4]);
        self.feed(&[4 - first as u8]);
    }

    // Takes encode_string(s) in.
    fn feed_string(&mut self, s: &[u8])
        requires { length s.now ≤ 65536 }
        ensures { TakesIn self.old (encode_string s.now) self.new }
    {
        self.feed_left(8 * s.len() as u32);
        self.feed(s);
    }

    // Takes bytepad of `front` and encode_string(s) in, from the start of a block.
    fn feed_padded(&mut self, front: &[u8], s: &[u8])
        requires { (self.old.waiting ≡ 0) × (length s.now ≤ 65536) }
        ensures { TakesIn self.old (bytepad (front.now ++ encode_string s.now) 136) self.new }
    {
        self.feed_left(136);
        self.feed(front);
        self.feed_string(s);
        self.fill_up();
    }
}

// Fills `out`, where `bits` is encoded at the end of the input.
pub fn kmac(key: &[u8], input: &[u8], customization: &[u8], bits: u32, out: &mut [u8])
    requires { (length key.now ≤ 65536) × (length customization.now ≤ 65536) × (bits < 2 ^ 24) }
    ensures { out.new ≡ kmac_of key.now input.now customization.now bits (length out.old) }
{
    let mut sponge = Sponge::new();
    // encode_string of the function's name
    sponge.feed_padded(&[1, 32, 0x4b, 0x4d, 0x41, 0x43], customization);
    sponge.feed_padded(&[], key);
    sponge.feed(input);
    sponge.feed_right(bits);
    sponge.finish(0x04, out);
}
