// The bench sheet (01, The bench sheet): from the bytes of an input to the bytes of its text.
#![tactic(auto)]

mod text;

ghost use Rattle.std.specs.Prelude.{◌≡◌, cond, ◌≤◌, length, replicate};
ghost use Rattle.calls.specs.Outcome.{accepted};
ghost use Rattle.calls.specs.Region.{over};
ghost use Rattle.claim.specs.Claim.{Demand3};
ghost use Rattle.claim.specs.Ceiling.{WithinCeiling};
ghost use Rattle.sheet_rows.specs.Input.{handed_in};
ghost use Rattle.sheet_parts.specs.Checks.{set_byte_of};
ghost use Rattle.sheet.specs.Sheet.{sheet_answer, sheet_of, sheet_fits};

// Writes the sheet of an input at the front of `text`, and answers its length: 0, with nothing written, where a lent slice does not fit.
pub fn sheet(input: &[u8], text: &mut [u8], work: &mut [u32]) -> usize
    ensures count { result ≡ cond (sheet_fits (length text.old) (length work.old))
        (length (sheet_of input.now)) 0 }
    ensures short { result ≤ 1024 }
    ensures printed { text.new ≡ cond (sheet_fits (length text.old) (length work.old))
        (over text.old 0 (sheet_of input.now)) text.old }
    ensures cleared { work.new ≡ cond (sheet_fits (length text.old) (length work.old))
        (replicate (length work.old) 0) work.old }
    ensures claim { sheet_answer input.now ≡ accepted
        → Demand3 (set_byte_of input.now) (handed_in (set_byte_of input.now) input.now) }
    ensures ceiling { sheet_answer input.now ≡ accepted
        → WithinCeiling (set_byte_of input.now) (handed_in (set_byte_of input.now) input.now) }
{
    if text.len() < 1024 {
        return 0;
    }
    if work.len() != 22521 {
        return 0;
    }
    let count = text::write(input, text, work);
    calls::clear(work);
    count
}
