// Commands that fill the stores. Each names a place and, where it fills a part, how many numbers that has.
use report::script::Line;
use report::{random, script};

// Residues from the generator: where it goes on from, and the modulus.
pub fn residues(line: Line, numbers: &mut [u32]) {
    let [place, count, start, modulus, ..] = line.operands;
    let q = script::low_word(modulus);
    if 0 < q {
        report::fill_residues(
            report::part_mut(numbers, place, count),
            (start % 1000) as u64,
            q,
        );
    }
}

// Random residues: group, slice and modulus.
pub fn random_residues(line: Line, numbers: &mut [u32]) {
    let [place, count, group, slice, modulus, ..] = line.operands;
    let q = script::low_word(modulus);
    random::fill_residues(report::part_mut(numbers, place, count), group, slice, q);
}

// One number at a place.
pub fn put(line: Line, numbers: &mut [u32]) {
    let [place, value, ..] = line.operands;
    if let Some(number) = numbers.get_mut(place) {
        *number = script::low_word(value);
    }
}

// One signed number at a place: its size of at most 4,095, and whether it is below 0.
pub fn put_signed(line: Line, signed: &mut [i32]) {
    let [place, size, is_negative, ..] = line.operands;
    if let Some(number) = signed.get_mut(place) {
        *number = match is_negative {
            0 => (size % 4096) as i32,
            _ => random::negative(size),
        };
    }
}

// Repeats the first numbers of a part of the signed ones, so many of them, to its end.
pub fn repeat_signed(line: Line, signed: &mut [i32]) {
    let [place, count, period, ..] = line.operands;
    let part = report::part_mut(signed, place, count);
    if let Some((first, others)) = part.split_at_mut_checked(period) {
        report::repeat(others, first);
    }
}

// Random signed numbers: group, slice, their largest size, and what stands for 0.
pub fn random_signed(line: Line, signed: &mut [i32]) {
    let [place, count, group, slice, size, zero, ..] = line.operands;
    let zero = (zero % 4096) as i32;
    random::fill_signed(
        report::part_mut(signed, place, count),
        group,
        slice,
        size,
        zero,
    );
}
