// The shortest reason for a statement by the words that a set of origins chooses, and its derivation line by line.
#![tactic(auto)]

ghost use Rattle.std.specs.Prelude.{◌≡◌, List, ℕ, ◌+◌, ◌*◌, ◌≤◌, ◌<◌, length, get_or, take, drop};
ghost use Rattle.derivation_lines.specs.Known.{KnownWords};
ghost use Rattle.derivation_lines.specs.Deriving.{cross_size, derive, derived_size};
ghost use Rattle.derivation_lines.specs.Flat.{derive_list};
ghost use Rattle.explain_line.specs.Blocks.{part_limit, put_lines};
ghost use Rattle.explain.specs.Shape.{Shaped};
ghost use Rattle.explain.specs.Straight.{straight};
ghost use Rattle.explain.specs.Table.{explain_outcome, explained};
ghost use Rattle.explain.specs.Found.{without_reason, write_lines};

use derivation_lines::IS_NOT;
use explain_line::find_link;
use explain_path::{write_rise, write_sink, write_swing};
use net::Refusal;
use reason::{ReasonError, find_reason};

// Why there is no explanation: the statement is not supported (number 7), the list of the reason or that of lines is too short for the places needed,
// which are told (number 8), or a refusal.
#[derive(Clone, Copy)]
pub enum ExplainError {
    Unsupported,
    ShortReason(u32),
    ShortLines(u32),
    Refused(Refusal),
}

impl From<ReasonError> for ExplainError {
    ghost from_gives = { λ reason e. e ≡ without_reason reason };

    fn from(reason: ReasonError) -> ExplainError {
        match reason {
            ReasonError::Unsupported => ExplainError::Unsupported,
            ReasonError::Short(needed) => ExplainError::ShortReason(needed),
            ReasonError::Refused(refusal) => ExplainError::Refused(refusal),
        }
    }
}

// How many lines a crossing takes.
fn cross_size(words: &[u32], set: u32, u: u16, v: u16) -> usize
    requires { KnownWords words.now }
    ensures { result ≡ cross_size set words.now u v }
{
    if find_link(words, set, u, v, IS_NOT) < words.len() {
        return 1;
    }
    2
}

// Whether the second part is gone straight down from `x`: it is one node, or x is an object.
fn is_straight(o: u32, x: u16, nodes: usize) -> bool
    ensures { result ≡ straight o x nodes }
{
    (nodes == 1) | ((x as u32) < o)
}

// How many lines the derivation has.
fn line_count(o: u32, words: &[u32], set: u32, part: &[u16], second: &[u16]) -> usize
    requires known { KnownWords words.now }
    requires first { (1 ≤ length part.now) × (length part.now ≤ part_limit) }
    requires second { length second.now ≤ part_limit }
    ensures { result ≡ derived_size o set words.now (get_or part.now 0 0) (drop 1 part.now) second.now }
{
    let links = part.len() - 1;
    if second.len() == 0 {
        if links == 0 {
            return 1;
        }
        return 2 * links - 1;
    }
    let down = 2 * links + 2 * (second.len() - 1);
    let u = part[links];
    let y = second[0];
    if is_straight(o, part[0], second.len()) {
        return down + cross_size(words, set, u, y);
    }
    down + cross_size(words, set, y, u) + 1
}

// The derivation into the front of the list.
fn write_parts(o: u32, words: &[u32], set: u32, part: &[u16], second: &[u16], list: &mut [u32])
    requires known { KnownWords words.now }
    requires first { (1 ≤ length part.now) × (length part.now ≤ part_limit) }
    requires second { length second.now ≤ part_limit }
    requires room { 4 * length (derive o set words.now (get_or part.now 0 0) (drop 1 part.now) second.now) ≤ length list.old }
    ensures { list.new ≡ put_lines list.old 0 (derive o set words.now (get_or part.now 0 0) (drop 1 part.now) second.now) }
{
    if second.len() == 0 {
        write_rise(words, set, part, list);
    } else {
        if is_straight(o, part[0], second.len()) {
            write_sink(words, set, part, second, list);
        } else {
            write_swing(words, set, part, second, list);
        }
    }
}

// Numbers 8 and 0 for the lines of a reason as it is written.
fn write_lines(
    o: u32,
    words: &[u32],
    set: u32,
    reason: &[u16],
    list: &mut [u32],
) -> Result<(u32, u32), ExplainError>
    requires known { KnownWords words.now }
    requires shape { (3 ≤ length reason.now) × (length reason.now ≤ part_limit) × (1 ≤ get_or reason.now 0 0) × (get_or reason.now 0 0 + 2 ≤ length reason.now) }
    ensures { (d m : List ℕ) → explain_outcome result d m list.new ≡ write_lines (derive_list o set words.now reason.now) (length reason.now) d m list.old }
{
    let end = 2 + reason[0] as usize;
    let part = &reason[2..end];
    let second = &reason[end..];
    let count = line_count(o, words, set, part, second);
    let places = 4 * count;
    if list.len() < places {
        return Err(ExplainError::ShortLines(places as u32));
    }
    write_parts(o, words, set, part, second, list);
    Ok((places as u32, reason.len() as u32))
}

// The same of the reason that stands in the first `size` places.
fn write_found(
    o: u32,
    words: &[u32],
    set: u32,
    size: u32,
    nodes: &[u16],
    list: &mut [u32],
) -> Result<(u32, u32), ExplainError>
    requires { Shaped words.now size nodes.now }
    ensures { (d m : List ℕ) → explain_outcome result d m list.new ≡ write_lines (derive_list o set words.now (take size nodes.now)) size d m list.old }
{
    write_lines(o, words, set, &nodes[..size as usize], list)
}

// The shortest reason for x → y (`sign` 0) or x ↛ y (`sign` 1), and its derivation: four numbers a line.
pub fn explain(
    o: u32,
    k: u32,
    words: &[u32],
    set: u32,
    x: u32,
    y: u32,
    sign: u32,
    scratch: &mut [u16],
    reason: &mut [u16],
    lines: &mut [u32],
) -> Result<(u32, u32), ExplainError>
    ensures { explain_outcome result scratch.new reason.new lines.new ≡ explained o k words.now set x y sign scratch.old reason.old lines.old }
{
    let size = find_reason(o, k, words, set, x, y, sign, scratch, reason)?;
    write_found(o, words, set, size, reason, lines)
}
