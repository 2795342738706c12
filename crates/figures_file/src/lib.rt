// The figures of a net file ([11]), or the number of its refusal.
#![tactic(auto)]

ghost use Rattle.std.specs.Prelude.{◌≡◌, ◌≤◌, length};
ghost use Rattle.netfile.specs.Contents.{file_limit};
ghost use Rattle.figures_file.specs.Files.{figured_bodies, figured_file};

use figures::{Figured, count_net, count_plain};
use netfile::{read_bodies, read_contents};
use netfile_numbers::{read_words, u32_at};

// The figures by the bodies of a file; without a set its words are plain.
fn count_bodies(nodes: &[u8], links: &[u8], origins: &[u8]) -> Figured
    requires nodes { 8 ≤ length nodes.now }
    requires links { length links.now ≤ file_limit }
    requires set { (length origins.now ≡ 0 → ⊥) → 4 ≤ length origins.now }
    ensures { result ≡ figured_bodies nodes.now links.now origins.now }
{
    let mut words = [0u32; 8192];
    read_words(links, &mut words);
    let size = links.len() / 4;
    let o = u32_at(nodes, 0);
    let k = u32_at(nodes, 4);
    if origins.len() == 0 {
        return count_plain(o, k, &words[..size]);
    }
    let set = u32_at(origins, 0);
    count_net(o, k, &words[..size], set)
}

// The figures of a file of any length: 9 for a malformed one. Its questions play no part.
pub fn count_file(file: &[u8]) -> Figured
    ensures { result ≡ figured_file file.now }
{
    match read_contents(file) {
        Ok(_) => {
            let bodies = read_bodies(file);
            count_bodies(bodies[0], bodies[1], bodies[3])
        }
        Err(_) => Figured {
            number: 9,
            counts: [0; 8],
        },
    }
}
