// The marks at the start of a scan: the nodes cleared, and the start marked.
#![tactic(auto)]

ghost use Rattle.std.specs.Prelude.{◌≡◌, ◌++◌, ◌<◌, ◌≤◌, length, drop};
ghost use Rattle.theory.specs.Marks.{scan_start};
ghost use Rattle.scan_start.specs.Starts.{cleared};

// No marks on the nodes below `n`.
pub fn clear(n: usize, marks: &mut [u8])
    requires { n ≤ length marks.old }
    ensures { marks.new ≡ cleared n marks.old }
{
    marks[..n].fill(0);
}

// The marks at the start: T and U on `x`, and no other.
pub fn put_start(n: usize, x: usize, marks: &mut [u8])
    requires { (x < n) × (n ≤ length marks.old) }
    ensures { marks.new ≡ scan_start n x ++ drop n marks.old }
{
    clear(n, marks);
    marks[x] = 5;
}
