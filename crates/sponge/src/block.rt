// The padding of a block of bytes.
ghost use Rattle.std.specs.Prelude.{◌≡◌, ◌-◌, ◌<◌, length};
ghost use Rattle.calls.specs.Region.{over};
ghost use Rattle.sponge.specs.Sponge.{padding};

use calls::copy_in;

// Pads a block from `at` on: the domain's suffix, zeros, and the final bit in the last byte.
pub fn pad_at(block: &mut [u8], at: usize, suffix: u8)
    requires { (length block.old ≡ 136) × (at < 136) × (suffix < 128) }
    ensures { block.new ≡ over block.old at (padding suffix (136 - at)) }
{
    if at == 135 {
        copy_in(block, at, &[suffix + 0x80]);
        return;
    }
    copy_in(block, at, &[suffix]);
    block[at + 1..135].fill(0);
    copy_in(block, 135, &[0x80]);
}
