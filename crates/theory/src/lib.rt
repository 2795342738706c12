// The plain types that the statements and the code share.
#![tactic(auto)]

// One command of a round: each link of `sign` (0 is, 1 is not) with marker `test` at one end puts marker `put` at the other end.
// The tested end is the tail, or where `at_head` holds the head.
#[derive(Drop)]
pub struct Command {
    pub sign: u32,
    pub at_head: bool,
    pub test: u8,
    pub put: u8,
}
