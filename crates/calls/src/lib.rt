// What the open calls of every layer share: the answer, the check of a slice of numbers, and the functions on a region of a lent slice.
#![tactic(auto)]

ghost use Rattle.std.specs.Prelude.{◌≡◌, ◌+◌, ◌≤◌, ltb, length, replicate};
ghost use Rattle.calls.specs.Outcome.{outcome, accepted, refuse, number_of, place_of};
ghost use Rattle.calls.specs.Checks.{passing, below};
ghost use Rattle.calls.specs.Region.{region, over};

// Why a call is refused; a refusal with a place holds it.
#[derive(Clone, Copy, Debug, PartialEq, Eq)]
pub enum Refusal {
    // there is no such set for this call
    NoSuchSet,
    // the length of a slice, or the number of results wanted
    Length,
    // the number at this place is out of range
    OutOfRange(u32),
    // the bytes end before the result at this place
    BytesEnded(u32),
    // 128 candidates in a row were set aside for the result at this place
    SetAside(u32),
    // lengths that do not fit each other, or one beyond the limit
    Size,
    // a factor is longer than the largest transform of the set
    AboveTransform,
    // the set is one of the other scheme
    OtherScheme,
    // the length of the ciphertext
    CiphertextLength,
    // the length of the work slice
    WorkLength,
    // the rows that are read or written are none, or more than there are
    RowCount,
    // the set has no transform of this size
    NoTransform,
}

impl Refusal {
    // The number of the refusal (docs/REFUSALS.md).
    pub fn number(self) -> u8
        ensures { result ≡ number_of self }
    {
        match self {
            Refusal::NoSuchSet => 1,
            Refusal::Length => 2,
            Refusal::OutOfRange(_) => 3,
            Refusal::BytesEnded(_) => 4,
            Refusal::SetAside(_) => 5,
            Refusal::Size => 6,
            Refusal::AboveTransform => 7,
            Refusal::OtherScheme => 8,
            Refusal::CiphertextLength => 9,
            Refusal::WorkLength => 10,
            Refusal::RowCount => 11,
            Refusal::NoTransform => 12,
        }
    }

    // Its place, 0 where it names none.
    pub fn place(self) -> u32
        ensures { result ≡ place_of self }
    {
        match self {
            Refusal::OutOfRange(place) | Refusal::BytesEnded(place) | Refusal::SetAside(place) =>
                place,
            _ => 0,
        }
    }
}

// What an open call answers.
pub type Answer = Result<(), Refusal>;

// The index of the first number that is `limit` or more, or the length where there is none: a count and no Option, as `passing` of specs/Checks.antt is.
pub fn first_at_least(xs: &[u32], limit: u32) -> usize
    ensures { result ≡ passing (below limit) 0 xs.now }
{
    for (i, x) in xs.iter().enumerate() {
        if *x >= limit {
            return i;
        }
    }
    xs.len()
}

// Refused at the first number out of range, `first` of `count`, its place counted from `offset`; none is where `first` is `count`.
pub fn first_checked(first: usize, count: usize, offset: usize) -> Answer
    requires { offset + count ≤ 65536 }
    ensures { outcome result ≡ refuse (ltb first count) 3 (offset + first) accepted }
{
    if first < count {
        return Err(Refusal::OutOfRange((offset + first) as u32));
    }
    Ok(())
}

// Sets the `n` numbers from `at` on to zero.
pub fn clear_at(work: &mut [u32], at: usize, n: usize)
    requires { at + n ≤ length work.old }
    ensures { work.new ≡ over work.old at (replicate n 0) }
{
    work[at..at + n].fill(0);
}

// Sets every number to zero.
pub fn clear(work: &mut [u32])
    ensures { work.new ≡ replicate (length work.old) 0 }
{
    work.fill(0);
}

// Copies `src` into the places from `at` on.
pub fn copy_in<T: Copy>(dst: &mut [T], at: usize, src: &[T])
    requires { at + length src.now ≤ length dst.old }
    ensures { dst.new ≡ over dst.old at src.now }
{
    // entry by entry, which the compiler makes a memcpy of: of `copy_from_slice` it made a memmove, which a caller in C would have to link
    for (i, entry) in src.iter().enumerate() {
        dst[at + i] = *entry;
    }
}

// Fills `dst` with the numbers from `at` on.
pub fn copy_out(dst: &mut [u32], work: &[u32], at: usize)
    requires { at + length dst.old ≤ length work.now }
    ensures { dst.new ≡ region work.now at (length dst.old) }
{
    let end = at + dst.len();
    copy_in(dst, 0, &work[at..end]);
}
