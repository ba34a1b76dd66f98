// The text of an input's sheet, or of its refusal.
ghost use Rattle.std.specs.Prelude.{◌≡◌, true, ◌≤◌, length};
ghost use Rattle.sets.specs.Table.{set_of};
ghost use Rattle.sheet_parts.specs.Checks.{has_sheet_of, input_bytes_of};
ghost use Rattle.sheet_parts.specs.Printed.{Printed};
ghost use Rattle.sheet_rows.specs.Input.{rows_answer, sheet_work};
ghost use Rattle.sheet.specs.Sheet.{answer_text, rows_text, sheet_of};

use calls::Answer;
use sets::Parameters;

// Fills the rows, and writes their sheet or the refusal.
fn write_rows(
    set: usize,
    p: Parameters,
    input: &[u8],
    noise: &mut [i64],
    sent: &mut [u32],
    read: &mut [u32],
    out: &mut [u8],
    work: &mut [u32],
) -> usize
    requires { (has_sheet_of set ≡ true) × (length input.now ≡ input_bytes_of set) × (length noise.old ≡ p.d)
        × (length sent.old ≡ p.d) × (length read.old ≡ p.d) × (1024 ≤ length out.old) × (length work.old ≡ sheet_work)
        × (p ≡ set_of set) }
    ensures { Printed out.old
        (answer_text (rows_answer set input.now) (rows_text set input.now)) out.new result }
{
    let answer = sheet_rows::fill(set, p, input, noise, sent, read, work);
    match answer {
        Ok(()) => sheet_parts::write_accepted(p, noise, sent, read, out),
        Err(refusal) => sheet_text::write_refused(refusal.number(), refusal.place(), out),
    }
}

// The same with arrays of its own for the rows.
fn write_checked(set: usize, p: Parameters, input: &[u8], out: &mut [u8], work: &mut [u32]) -> usize
    requires { (has_sheet_of set ≡ true) × (length input.now ≡ input_bytes_of set) × (1024 ≤ length out.old) × (length work.old ≡ sheet_work)
        × (p ≡ set_of set) }
    ensures { Printed out.old
        (answer_text (rows_answer set input.now) (rows_text set input.now)) out.new result }
{
    let d = p.d;
    let mut noise = [0i64; 256];
    let mut sent = [0u32; 256];
    let mut read = [0u32; 256];
    write_rows(
        set,
        p,
        input,
        &mut noise[0..d],
        &mut sent[0..d],
        &mut read[0..d],
        out,
        work,
    )
}

// Writes the sheet of an input, or its refusal, and answers its length: an empty input has no set byte, and is refused with 2.
pub fn write(input: &[u8], out: &mut [u8], work: &mut [u32]) -> usize
    requires { (1024 ≤ length out.old) × (length work.old ≡ sheet_work) }
    ensures { Printed out.old (sheet_of input.now) out.new result }
{
    if input.len() < 1 {
        return sheet_text::write_refused(2, 0, out);
    }
    let set = sheet_parts::set_byte(input);
    let p = sets::parameters_of(set);
    let checked = sheet_parts::checked(set, p, input);
    match checked {
        Ok(()) => write_checked(set, p, input, out, work),
        Err(refusal) => sheet_text::write_refused(refusal.number(), refusal.place(), out),
    }
}
