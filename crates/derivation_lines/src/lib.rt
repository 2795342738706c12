// The numbers by which the parts of a line are written. They are no enums: a lent list of lines holds them, and `ground_at` and `sign_at` read any number there.
#![tactic(auto)]

// The signs: x → y and x ↛ y.
pub const IS: u32 = 0;

pub const IS_NOT: u32 = 1;

// What a line comes from: a link, or one of (3.1) to (3.5).
pub const LINK: u32 = 0;

pub const RULE_1: u32 = 1;

pub const RULE_2: u32 = 2;

pub const RULE_3: u32 = 3;

pub const RULE_4: u32 = 4;

pub const RULE_5: u32 = 5;
