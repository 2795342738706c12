// The figures of a net out of its rows, by counting ones ([11]).
#![tactic(auto)]

ghost use Rattle.std.specs.Prelude.{◌≡◌, ◌+◌, ◌-◌, ◌*◌, ◌≤◌, length};
ghost use Rattle.figures_counts.specs.Ones.{ones_both, row_four, row_figures, Fits};

// How many ones the words of two lists from place `a` on below `e` have in common.
fn ones_in_common(a: usize, e: usize, rows: &[u64], others: &[u64]) -> u64
    requires { (a ≤ e) × (e ≤ 16384) × (e ≤ length rows.now) × (e ≤ length others.now) }
    ensures { (result ≡ ones_both a (e - a) rows.now others.now) × (result ≤ 1048576) }
{
    let mut size: u64 = 0;
    for i in a..e {
        size += (rows[i] & others[i]).count_ones() as u64;
    }
    size
}

// None, yes, no and both among so many pairs, by the rows from place `a` on below `e`.
fn count_four(pairs: u64, a: usize, e: usize, yeses: &[u64], noes: &[u64]) -> [u64; 4]
    requires { (a ≤ e) × (e ≤ 16384) × (e ≤ length yeses.now) × (e ≤ length noes.now) × Fits pairs a (e - a) yeses.now noes.now }
    ensures { result ≡ row_four pairs a (e - a) yeses.now noes.now }
{
    let some = ones_in_common(a, e, yeses, yeses);
    let more = ones_in_common(a, e, noes, noes);
    let both = ones_in_common(a, e, yeses, noes);
    [
        pairs - (some + (more - both)),
        some - both,
        more - both,
        both,
    ]
}

// The eight figures of a net of `o` objects and `k` kinds, by its rows of `w` words.
pub fn count_figures(o: u32, k: u32, w: usize, yeses: &[u64], noes: &[u64]) -> [u64; 8]
    requires size { (o + k ≤ 1024) × (w ≤ 16) }
    requires room { ((o + k) * w ≤ length yeses.now) × ((o + k) * w ≤ length noes.now) }
    requires objects { Fits (o * k) 0 (o * w) yeses.now noes.now }
    requires kinds { Fits (k * k) (o * w) (k * w) yeses.now noes.now }
    ensures { result ≡ row_figures o k w yeses.now noes.now }
{
    let objects = o as usize;
    let kinds = k as usize;
    let middle = objects * w;
    let end = middle + kinds * w;
    let p = count_four(o as u64 * k as u64, 0, middle, yeses, noes);
    let q = count_four(k as u64 * k as u64, middle, end, yeses, noes);
    [p[0], p[1], p[2], p[3], q[0], q[1], q[2], q[3]]
}
