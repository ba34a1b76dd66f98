// The noise sheet as a function for callers in C (include/titanium.h), sets 0 to 6.
#![tactic(auto)]

ghost use Rattle.std.specs.Prelude.{◌≡◌, cond, length, replicate};
ghost use Rattle.calls.specs.Region.{over};
ghost use Rattle.sheet.specs.Sheet.{sheet_of, sheet_fits};

// The sheet of an input, or the line of its refusal, at the front of `text`, and its length; 0 where a lent slice does not fit.
#[unsafe(no_mangle)]
pub extern "C" fn titanium_noise_sheet(input: &[u8], text: &mut [u8], work: &mut [u32]) -> usize
    ensures count { result ≡ cond (sheet_fits (length text.old) (length work.old)) (length (sheet_of input.now)) 0 }
    ensures printed { text.new ≡ cond (sheet_fits (length text.old) (length work.old))
        (over text.old 0 (sheet_of input.now)) text.old }
    ensures cleared { work.new ≡ cond (sheet_fits (length text.old) (length work.old))
        (replicate (length work.old) 0) work.old }
{
    sheet::sheet(input, text, work)
}
