// The plain type that the statements about the marker unit and its code share.
#![tactic(auto)]

use theory::Command;

// One command of a program: markers cleared at all nodes, a marker set at a node, a command over the links, a loop, its end. `Unknown` is a word that is
// none of them, or that names no node or no marker.
#[derive(Drop)]
pub enum Instruction {
    Clear(u8),
    Set(u8, usize),
    Link(Command),
    Loop,
    End,
    Unknown,
}
