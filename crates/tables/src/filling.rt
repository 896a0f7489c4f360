// A table, filled by a function of the index.
ghost use Rattle.std.specs.Prelude.{◌≡◌, ◌≤◌, ◌<◌, ℕ};
ghost use Rattle.tables.specs.Holding.{Holds};

// A table whose first m entries hold what `entry` gives for them, and zeros beyond them.
pub fn table_of<const N: usize, F: Fn(usize) -> u8>(m: usize, entry: F) -> [u8; N]
    requires few { m ≤ N }
    requires callable { (i : ℕ) → i < m → F.pre entry i }
    ensures { (f : ℕ → ℕ) → ((i v : ℕ) → i < m → F.post entry i v → v ≡ f i) → Holds f m N result }
{
    let mut table = [0u8; N];
    for i in 0..m {
        table[i] = entry(i);
    }
    table
}
