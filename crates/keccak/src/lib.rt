// The permutation Keccak-f[1600] of FIPS 202. The lane A[x, y] of FIPS 202 is `a[y][x]`: five rows of five lanes.
#![tactic(auto)]

ghost use Rattle.std.specs.Prelude.{◌≡◌, ◌+◌, ◌*◌, ◌%◌, ◌<◌};
ghost use Rattle.maths.specs.Vector.{at};
ghost use Rattle.keccak.specs.Lane.{◌⊕◌, ◌·◌, complement, rotl, five, lane};
ghost use Rattle.keccak.specs.Keccak.{C, D, θ, ρ, π, χ, ι, keccak_f};

// The constant that each round adds to the lane A[0, 0].
const ROUND_CONSTANTS: [u64; 24] = [
    0x0000000000000001,
    0x0000000000008082,
    0x800000000000808A,
    0x8000000080008000,
    0x000000000000808B,
    0x0000000080000001,
    0x8000000080008081,
    0x8000000000008009,
    0x000000000000008A,
    0x0000000000000088,
    0x0000000080008009,
    0x000000008000000A,
    0x000000008000808B,
    0x800000000000008B,
    0x8000000000008089,
    0x8000000000008003,
    0x8000000000008002,
    0x8000000000000080,
    0x000000000000800A,
    0x800000008000000A,
    0x8000000080008081,
    0x8000000000008080,
    0x0000000080000001,
    0x8000000080008008,
];

// Each lane of a row, rotated by its own offset.
fn rotate_row(a: [u64; 5], by: [u32; 5]) -> [u64; 5]
    requires { (at by 0 < 64) × (at by 1 < 64) × (at by 2 < 64) × (at by 3 < 64) × (at by 4 < 64) }
    ensures { result ≡ five (λ x. rotl (at by x) (at a x)) }
{
    [
        a[0].rotate_left(by[0]),
        a[1].rotate_left(by[1]),
        a[2].rotate_left(by[2]),
        a[3].rotate_left(by[3]),
        a[4].rotate_left(by[4]),
    ]
}

// Two rows, lane by lane.
fn xor_row(a: [u64; 5], b: [u64; 5]) -> [u64; 5]
    ensures { result ≡ five (λ x. at a x ⊕ at b x) }
{
    [
        a[0] ^ b[0],
        a[1] ^ b[1],
        a[2] ^ b[2],
        a[3] ^ b[3],
        a[4] ^ b[4],
    ]
}

// Algorithm 1, step 1: the parities of the columns.
fn parity(a: [[u64; 5]; 5]) -> [u64; 5]
    ensures { result ≡ C a }
{
    xor_row(xor_row(xor_row(xor_row(a[0], a[1]), a[2]), a[3]), a[4])
}

// Algorithm 1, step 2: what each column takes from the parities of its neighbours.
fn mix_row(c: [u64; 5]) -> [u64; 5]
    ensures { result ≡ D c }
{
    let r = rotate_row(c, [1; 5]);
    [
        c[4] ^ r[1],
        c[0] ^ r[2],
        c[1] ^ r[3],
        c[2] ^ r[4],
        c[3] ^ r[0],
    ]
}

// Algorithm 1: each lane takes the parities of two columns. Five rows, as in `pi`, and no `map`: its closure would need a clause of its own, `xor_row`'s again.
fn theta(a: [[u64; 5]; 5]) -> [[u64; 5]; 5]
    ensures { result ≡ θ a }
{
    let d = mix_row(parity(a));
    [
        xor_row(a[0], d),
        xor_row(a[1], d),
        xor_row(a[2], d),
        xor_row(a[3], d),
        xor_row(a[4], d),
    ]
}

// Algorithm 2: the lanes are rotated.
fn rho(a: [[u64; 5]; 5]) -> [[u64; 5]; 5]
    ensures { result ≡ ρ a }
{
    [
        rotate_row(a[0], [0, 1, 62, 28, 27]),
        rotate_row(a[1], [36, 44, 6, 55, 20]),
        rotate_row(a[2], [3, 10, 43, 25, 39]),
        rotate_row(a[3], [41, 45, 15, 21, 8]),
        rotate_row(a[4], [18, 2, 61, 56, 14]),
    ]
}

// The row y after the lanes have changed places.
fn pi_row(a: [[u64; 5]; 5], y: usize) -> [u64; 5]
    requires { y < 5 }
    ensures { result ≡ five (λ x. lane a ((x + 3 * y) % 5) x) }
{
    [
        a[0][(0 + 3 * y) % 5],
        a[1][(1 + 3 * y) % 5],
        a[2][(2 + 3 * y) % 5],
        a[3][(3 + 3 * y) % 5],
        a[4][(4 + 3 * y) % 5],
    ]
}

// Algorithm 3: the lanes change places.
fn pi(a: [[u64; 5]; 5]) -> [[u64; 5]; 5]
    ensures { result ≡ π a }
{
    [
        pi_row(a, 0),
        pi_row(a, 1),
        pi_row(a, 2),
        pi_row(a, 3),
        pi_row(a, 4),
    ]
}

// Algorithm 4 on one row.
fn chi_row(a: [u64; 5]) -> [u64; 5]
    ensures { result ≡ five (λ x. at a x ⊕ complement (at a ((x + 1) % 5)) · at a ((x + 2) % 5)) }
{
    let a0 = a[0];
    let a1 = a[1];
    let a2 = a[2];
    let a3 = a[3];
    let a4 = a[4];
    [
        a0 ^ (!a1 & a2),
        a1 ^ (!a2 & a3),
        a2 ^ (!a3 & a4),
        a3 ^ (!a4 & a0),
        a4 ^ (!a0 & a1),
    ]
}

// Algorithm 4: the only step that is not linear.
fn chi(a: [[u64; 5]; 5]) -> [[u64; 5]; 5]
    ensures { result ≡ χ a }
{
    a.map(chi_row)
}

// Algorithm 6: the round's constant goes into one lane.
fn iota(mut a: [[u64; 5]; 5], rc: u64) -> [[u64; 5]; 5]
    ensures { result ≡ ι a rc }
{
    a[0][0] ^= rc;
    a
}

// One round, with its constant.
fn round(a: [[u64; 5]; 5], rc: u64) -> [[u64; 5]; 5]
    ensures { result ≡ ι (χ (π (ρ (θ a)))) rc }
{
    iota(chi(pi(rho(theta(a)))), rc)
}

// Keccak-f[1600]: the 24 rounds.
pub fn permute(state: [[u64; 5]; 5]) -> [[u64; 5]; 5]
    ensures { result ≡ keccak_f state }
{
    // A copy before the loop: in it the table would be laid out anew at each turn.
    let constants = ROUND_CONSTANTS;
    let mut a = state;
    for i in 0..24 {
        let t = round(a, constants[i]);
        a = t;
    }
    a
}
