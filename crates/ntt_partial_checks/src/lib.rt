// The checks of the partial transform and of its inverse (02, No. 2), and which transform of a set has a size.
#![tactic(auto)]

ghost use Rattle.std.specs.Prelude.{◌≡◌, ◌*◌, ◌<◌, MatchOption};
ghost use Rattle.sets.specs.Table.{set_of};
ghost use Rattle.sets.specs.Rules.{Rules};
ghost use Rattle.ntt_partial_checks.specs.Checks.{size_number_of, PartialChecked};

use calls::Refusal;
use sets::Parameters;

// Which transform of the set has rows · row places: 1, 2 or 3, where one has. A factor above 4,096 is refused before the product, which could wrap.
pub fn size_number(p: Parameters, rows: usize, row: usize) -> Option<usize>
    requires { Rules p }
    ensures { MatchOption result (size_number_of p (rows * row) ≡ 0) (λ i. (0 < i) × (i ≡ size_number_of p (rows * row))) }
{
    if 4096 < rows {
        return None;
    }
    if 4096 < row {
        return None;
    }
    let size = rows * row;
    if size == p.d1 {
        return Some(1);
    }
    if size == p.d2 {
        return Some(2);
    }
    if size == p.d3 { Some(3) } else { None }
}

// The checks of both calls, in the order 1, 11, 12, 2, 3; `places` is the length of the output. They give the number of the transform.
pub fn checked(
    set: usize,
    p: Parameters,
    rows: usize,
    row: usize,
    m: usize,
    input: &[u32],
    places: usize,
) -> Result<usize, Refusal>
    requires { p ≡ set_of set }
    ensures { PartialChecked set rows row m input.now places result }
{
    if set < 1 {
        return Err(Refusal::NoSuchSet);
    }
    if sets::LAST < set {
        return Err(Refusal::NoSuchSet);
    }
    if m < 1 {
        return Err(Refusal::RowCount);
    }
    if rows < m {
        return Err(Refusal::RowCount);
    }
    let i = size_number(p, rows, row).ok_or(Refusal::NoTransform)?;
    let size = rows * row;
    if input.len() != size {
        return Err(Refusal::Length);
    }
    if places != size {
        return Err(Refusal::Length);
    }
    middle::checks::one_checked(input, p.q, 0)?;
    Ok(i)
}
