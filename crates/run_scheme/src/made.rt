// The sheet of made noise: which rows it shows, and in what order.
ghost use Rattle.std.specs.Prelude.{◌≡◌, ◌≤◌, ◌<◌, ◌^◌, nat_abs, length};
ghost use Rattle.sheet_order.specs.Order.{Sizes};

use std::io;

// The noise that a byte stands for, in two's complement.
fn made_noise(byte: u8) -> i64
    ensures { nat_abs result < 2 ^ 62 }
{
    if byte < 128 {
        return byte as i64;
    }
    let size = 256 - byte as u32;
    0 - size as i64
}

// Fills `noise` with what bytes stand for.
fn fill_noise(bytes: &[u8], noise: &mut [i64])
    requires { Sizes noise.old }
    ensures { Sizes noise.new }
{
    for (j, number) in noise.iter_mut().enumerate() {
        *number = made_noise(bytes.get(j).copied().unwrap_or(0));
    }
}

// Prints the sheet of the noise that bytes stand for, with these bits.
fn print_noise(
    rt: &impl Print,
    bytes: &[u8],
    noise: &mut [i64],
    bits: &[u32],
    text: &mut [u8],
) -> io::Result<()>
    requires { Sizes noise.old × (length bits.now ≡ length noise.old) × (length noise.old ≤ 256) × (1024 ≤ length text.old) }
{
    fill_noise(bytes, noise);
    let written = sheet_text::write_sheet(noise, bits, bits, 0, 0, text);
    rt.write_all(report::front(text, written))
}

// The sheet of sixteen places with made noise, which the first bytes of the store stand for; all bits are 0.
pub fn print_made(rt: &impl Print, store: &[u8]) -> io::Result<()> {
    let mut noise = [0i64; 16];
    let bits = [0u32; 16];
    let mut text = [0u8; 1024];
    print_noise(rt, store, &mut noise, &bits, &mut text)
}
