// The figures of a net ([11]), or the number of its refusal.
#![tactic(auto)]

ghost use Rattle.std.specs.Prelude.{◌≡◌, ℕ, ◌+◌, Ok};
ghost use Rattle.theory.specs.Origins.{chosen, NetFrom};
ghost use Rattle.net.specs.Table.{check_net};
ghost use Rattle.figures_counts.specs.Counting.{figures};
ghost use Rattle.figures.specs.Figured.{figured_by, figured_net, figured_plain};

use figures_rows::count_figures;
use net::{Refusal, check_net, check_plain, refusal_given};
use rows_filling::fill_rows;

// Number 0 and the eight figures, or the number of a refusal and zeros: so a refused net adds nothing.
// The number stays beside the figures: `sums_of` and `fleet_from`, which say what a sheet adds, read the figures of a refused file too.
#[derive(Drop)]
pub struct Figured {
    pub number: u32,
    pub counts: [u64; 8],
}

// The figures of the chosen words of a net that was checked.
fn count_checked(o: u32, k: u32, n: usize, words: &[u32], set: u32) -> [u64; 8]
    requires net { NetFrom o k words.now }
    requires size { n ≡ o + k }
    ensures { result ≡ figures o k (chosen set words.now) }
{
    let mut yeses = [0u64; 16384];
    let mut noes = [0u64; 16384];
    let w = (n + 63) / 64;
    fill_rows(o, k, n, w, words, set, &mut yeses, &mut noes);
    count_figures(o, k, w, &yeses, &noes)
}

// The same by what the check of a net gave.
fn count_by(o: u32, k: u32, words: &[u32], set: u32, checked: Result<usize, Refusal>) -> Figured
    requires { (n : ℕ) → checked ≡ Ok n → check_net o k words.now set ≡ Ok n }
    ensures { result ≡ figured_by o k words.now set checked }
{
    match checked {
        Ok(n) => {
            let counts = count_checked(o, k, n, words, set);
            Figured { number: 0, counts }
        }
        Err(refusal) => {
            let reply = refusal_given(refusal);
            let none = [0u64; 8];
            Figured {
                number: reply.number,
                counts: none,
            }
        }
    }
}

// The figures of a net whose words have origins, of which the set chooses.
pub fn count_net(o: u32, k: u32, words: &[u32], set: u32) -> Figured
    ensures { result ≡ figured_net o k words.now set }
{
    let checked = check_net(o, k, words, set);
    count_by(o, k, words, set, checked)
}

// The figures of a net of plain words: all of origin 0, all chosen.
pub fn count_plain(o: u32, k: u32, words: &[u32]) -> Figured
    ensures { result ≡ figured_plain o k words.now }
{
    let checked = check_plain(o, k, words);
    count_by(o, k, words, 1, checked)
}
