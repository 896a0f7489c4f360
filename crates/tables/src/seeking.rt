// The greatest number and the least that pass a test.
ghost use Rattle.std.specs.Prelude.{◌≡◌, ◌+◌, ◌-◌, ◌≤◌, ◌<◌, ℕ, Bool};
ghost use Rattle.jumps.specs.Least.{greatest, least};

// Document 01's number of the greatest of the first n points that passes; 0 if there is none, and no `Option`, since the rules count from it.
pub(crate) fn greatest<F: Fn(usize) -> bool>(n: usize, passes: F) -> usize
    requires { (i : ℕ) → i < n → F.pre passes i }
    ensures same { (test : ℕ → Bool) → ((i : ℕ) (b : Bool) → i < n → F.post passes i b → b ≡ test i) → result ≡ greatest test n }
    ensures at_most_n { result ≤ n }
{
    for i in (0..n).rev() {
        if passes(i) {
            return i + 1;
        }
    }
    0
}

// The least from 1 on that passes; m if none below it does.
pub fn least<F: Fn(usize) -> bool>(m: usize, passes: F) -> usize
    requires some { 1 ≤ m }
    requires callable { (k : ℕ) → k < m → F.pre passes k }
    ensures same { (test : ℕ → Bool) → ((k : ℕ) (b : Bool) → k < m → F.post passes k b → b ≡ test k) → result ≡ least test 1 (m - 1) }
    ensures at_most_m { result ≤ m }
{
    for k in 1..m {
        if passes(k) {
            return k;
        }
    }
    m
}
