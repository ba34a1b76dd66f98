// The rows of a bench sheet of set 0 (01, The bench sheet): from the bytes of an input to the noise, the bits sent and the bits read.
#![tactic(auto)]

mod bytes;
mod steps;

ghost use Rattle.std.specs.Prelude.{◌≡◌, length};
ghost use Rattle.calls.specs.Outcome.{outcome, accepted, leaves};
ghost use Rattle.sheet_bench.specs.Bench.{bench_answer, bench_noise, bench_message, bench_read};

use crate::bytes::{copy_numbers, first_unfit};
use calls::{Answer, Refusal};

// Writes the rows of an input in range.
fn fill(input: &[u8], noise: &mut [i64], sent: &mut [u32], read: &mut [u32])
    requires { (length input.now ≡ 14) × (bench_answer input.now ≡ accepted) × (length noise.old ≡ 2) × (length sent.old ≡ 2)
        × (length read.old ≡ 2) }
    ensures { (noise.new ≡ bench_noise input.now) × (sent.new ≡ bench_message input.now)
        × (read.new ≡ bench_read input.now) }
{
    copy_numbers(input, 12, sent);
    steps::take_steps(input, sent, noise, read);
}

// The rows of an input of set 0: the noise, the bits sent and the bits read, by place. Demand 3 on them is a promise of the sheet.
pub fn bench_rows(input: &[u8], noise: &mut [i64], sent: &mut [u32], read: &mut [u32]) -> Answer
    requires { (length input.now ≡ 14) × (length noise.old ≡ 2) × (length sent.old ≡ 2) × (length read.old ≡ 2) }
    ensures answer { outcome result ≡ bench_answer input.now }
    ensures noises { noise.new ≡ leaves (bench_answer input.now) (bench_noise input.now) noise.old }
    ensures bits { sent.new ≡ leaves (bench_answer input.now) (bench_message input.now) sent.old }
    ensures reading { read.new ≡ leaves (bench_answer input.now) (bench_read input.now) read.old }
{
    let place = first_unfit(input);
    if place < input.len() {
        return Err(Refusal::OutOfRange(place as u32));
    }
    fill(input, noise, sent, read);
    Ok(())
}
