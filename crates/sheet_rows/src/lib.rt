// The rows of a bench sheet (01, The bench sheet): the noise, the bits sent and the bits read of an input whose set byte and length are checked.
#![tactic(auto)]

mod seeded;

ghost use Rattle.std.specs.Prelude.{◌≡◌, true, length};
ghost use Rattle.calls.specs.Outcome.{outcome, accepted};
ghost use Rattle.sets.specs.Table.{set_of};
ghost use Rattle.sheet_parts.specs.Checks.{has_sheet_of, input_bytes_of};
ghost use Rattle.sheet_rows.specs.Input.{rows_answer, sheet_work};
ghost use Rattle.sheet_rows.specs.Rows.{InputRows};

use calls::Answer;
use sets::Parameters;

// Writes the noise, the bits sent and the bits read of every place.
pub fn fill(
    set: usize,
    p: Parameters,
    input: &[u8],
    noise: &mut [i64],
    sent: &mut [u32],
    read: &mut [u32],
    work: &mut [u32],
) -> Answer
    requires { (has_sheet_of set ≡ true) × (length input.now ≡ input_bytes_of set) × (length noise.old ≡ p.d)
        × (length sent.old ≡ p.d) × (length read.old ≡ p.d) × (length work.old ≡ sheet_work) × (p ≡ set_of set) }
    ensures answer { outcome result ≡ rows_answer set input.now }
    ensures rows { outcome result ≡ accepted → InputRows set input.now noise.new sent.new read.new }
{
    if set < 1 {
        return sheet_bench::bench_rows(input, noise, sent, read);
    }
    let size = scheme::work_length(p);
    seeded::seeded_rows(
        p,
        input[1..33].as_array().unwrap(),
        input[65..97].as_array().unwrap(),
        input[33..65].as_array().unwrap(),
        noise,
        sent,
        read,
        &mut work[0..size],
    )
}
