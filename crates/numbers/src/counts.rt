// Counts of numbers and starts of vectors: products of two of a set's lengths.
ghost use Rattle.std.specs.Prelude.{◌≡◌, ◌*◌, ◌≤◌};

// The product of two small numbers.
pub fn product(x: usize, y: usize) -> usize
    requires { (x ≤ 4096) × (y ≤ 4096) }
    ensures { result ≡ x * y }
{
    x * y
}
