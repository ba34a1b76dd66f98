// The text of the bench sheet, from the noise and the bits of a sealing (01, The bench sheet), and the text of a refusal.
#![tactic(auto)]

mod append;
mod rows;

ghost use Rattle.std.specs.Prelude.{◌≡◌, ◌≤◌, length};
ghost use Rattle.calls.specs.Region.{over};
ghost use Rattle.sheet_text.specs.Text.{sheet_text, refused_text};
ghost use Rattle.sheet_text.specs.Written.{Sealing};

use append::Text;
use rows::put_sheet;

// Writes the sheet at the front of `out`, and answers its length.
pub fn write_sheet(
    noise: &[i64],
    sent: &[u32],
    read: &[u32],
    ceiling: u64,
    half: u64,
    out: &mut [u8],
) -> usize
    requires { Sealing noise.now sent.now read.now × (length noise.now ≤ 256) × (1024 ≤ length out.old) }
    ensures value { result ≡ length (sheet_text noise.now sent.now read.now ceiling half) }
    ensures out_after { out.new ≡ over out.old 0 (sheet_text noise.now sent.now read.now ceiling half) }
    ensures upper_bound { result ≤ 1024 }
{
    let mut order: [usize; 256] = [0; 256];
    let mut text = Text::new();
    put_sheet(
        noise,
        sent,
        read,
        ceiling,
        half,
        &mut order[0..256],
        &mut text,
    );
    text.write(out)
}

// Writes the refusal with this number and place at the front of `out`, and answers its length. Two numbers, and no `Refusal`: the line is defined for any two.
pub fn write_refused(number: u8, place: u32, out: &mut [u8]) -> usize
    requires { 1024 ≤ length out.old }
    ensures value { result ≡ length (refused_text number place) }
    ensures out_after { out.new ≡ over out.old 0 (refused_text number place) }
    ensures upper_bound { result ≤ 1024 }
{
    let mut text = Text::new();
    text.push_bytes(b"refused ");
    text.push_number(number as u64, b' ');
    text.push_number(place as u64, b'\n');
    text.write(out)
}
