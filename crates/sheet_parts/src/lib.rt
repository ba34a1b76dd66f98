// The parts of the bench sheet that need no rows: the checks of an input, its set byte and its length, and the text of rows that are filled.
#![tactic(auto)]

ghost use Rattle.std.specs.Prelude.{◌≡◌, ◌≤◌, length};
ghost use Rattle.calls.specs.Outcome.{outcome, accepted};
ghost use Rattle.sets.specs.Table.{set_of};
ghost use Rattle.sets.specs.Rules.{Rules};
ghost use Rattle.sets.specs.Derived.{half_modulus_of};
ghost use Rattle.ceiling.specs.Ceiling.{ceiling};
ghost use Rattle.sheet_text.specs.Text.{sheet_text};
ghost use Rattle.sheet_text.specs.Written.{Sealing};
ghost use Rattle.sheet_parts.specs.Checks.{has_sheet_of, input_bytes_of, set_byte_of, input_answer};
ghost use Rattle.sheet_parts.specs.Printed.{Printed};

use calls::{Answer, Refusal};
use sets::Parameters;

// The set byte.
pub fn set_byte(input: &[u8]) -> usize
    requires { 1 ≤ length input.now }
    ensures { result ≡ set_byte_of input.now }
{
    input[0] as usize
}

// How many bytes an input of a set has.
fn input_bytes(set: usize) -> usize
    ensures { result ≡ input_bytes_of set }
{
    if set == 0 {
        return 14;
    }
    97
}

// Whether a set has a sheet.
fn has_sheet(set: usize, p: Parameters) -> bool
    requires { p ≡ set_of set }
    ensures { result ≡ has_sheet_of set }
{
    if set == 0 {
        return true;
    }
    p.scheme == sets::ENCRYPTION
}

// The checks of an input that is not empty: refused with 1 when the set has no sheet, with 2 when the length is not the set's.
pub fn checked(set: usize, p: Parameters, input: &[u8]) -> Answer
    requires { (1 ≤ length input.now) × (set ≡ set_byte_of input.now) × (p ≡ set_of set) }
    ensures { outcome result ≡ input_answer input.now accepted }
{
    if !has_sheet(set, p) {
        return Err(Refusal::NoSuchSet);
    }
    if input.len() != input_bytes(set) {
        return Err(Refusal::Length);
    }
    Ok(())
}

// Writes the sheet of these rows.
pub fn write_accepted(
    p: Parameters,
    noise: &[i64],
    sent: &[u32],
    read: &[u32],
    out: &mut [u8],
) -> usize
    requires { Rules p × Sealing noise.now sent.now read.now × (length noise.now ≤ 256) × (1024 ≤ length out.old) }
    ensures { Printed out.old
        (sheet_text noise.now sent.now read.now (ceiling p) (half_modulus_of p)) out.new result }
{
    let most = ceiling::ceiling(p);
    let half = sets::derived::half_modulus(p) as u64;
    sheet_text::write_sheet(noise, sent, read, most, half, out)
}
