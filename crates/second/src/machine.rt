// The marker unit by a table of its own: each of the eight markers has a row of 1,024 places, true where a node has the marker. A loop is run where it
// begins.
ghost use Rattle.std.specs.Prelude.{◌<◌};

use crate::net::{Net, Nodes, Sign};
use crate::places::{item_at, narrow};
use crate::reply::{Refusal, Reply, given};

// The words of a loop's beginning and of its end.
const LOOP: u32 = 50331648;

const END: u32 = 67108864;

// A command of a program, with markers from 0 to 7.
#[derive(Clone, Copy)]
enum Command {
    Clear {
        markers: u32,
    },
    Set {
        marker: u32,
        node: u32,
    },
    Link {
        tested: u32,
        put: u32,
        sign: Sign,
        is_back: bool,
    },
    Loop,
    End,
}

impl Command {
    // The command of a word; nothing where none has that word.
    fn of(nodes: Nodes, word: u32) -> Option<Command> {
        let upper = word / 65536 % 256;
        let lower = word / 256 % 256;
        match word / 16777216 {
            0 if word > 0 && word <= 255 => Some(Command::Clear { markers: word }),
            1 if upper <= 7 && nodes.is_node(word % 65536) => Some(Command::Set {
                marker: upper,
                node: word % 65536,
            }),
            2 if upper <= 7 && lower <= 7 && word % 256 <= 3 => Some(Command::Link {
                tested: upper,
                put: lower,
                sign: if word % 2 == 0 { Sign::Is } else { Sign::IsNot },
                is_back: word / 2 % 2 == 1,
            }),
            3 if word == LOOP => Some(Command::Loop),
            4 if word == END => Some(Command::End),
            _ => None,
        }
    }
}

// The first place whose command is at fault: one that is none, a loop inside a loop, and a beginning or an end of a loop without the other.
fn first_wrong(nodes: Nodes, program: &[u32]) -> Option<usize> {
    let mut is_inside = false;
    for (at, &word) in program.iter().enumerate() {
        match Command::of(nodes, word) {
            None => return Some(at),
            Some(Command::Loop) => {
                if is_inside || !program.iter().skip(at).any(|&later| later == END) {
                    return Some(at);
                }
                is_inside = true;
            }
            Some(Command::End) => {
                if !is_inside {
                    return Some(at);
                }
                is_inside = false;
            }
            Some(_) => {}
        }
    }
    None
}

// The place of a marker and a node.
fn cell(marker: u32, v: u32) -> usize
    ensures { result < 8192 }
{
    (marker % 8 * 1024 + v % 1024) as usize
}

// Whether a marker is among the markers of a set.
fn is_among(marker: u32, markers: u32) -> bool {
    markers >> (marker % 8) & 1 == 1
}

// What a run has: the net, how many commands it may still run and has run, and which node has which marker.
#[derive(Drop)]
struct Machine<'a> {
    net: Net<'a>,
    budget: u32,
    count: u32,
    table: [bool; 8192],
}

impl<'a> Machine<'a> {
    // Whether a node has a marker.
    fn has(&self, marker: u32, v: u32) -> bool {
        self.table[cell(marker, v)]
    }

    // Puts a marker on a node; true when it was not there.
    fn put(&mut self, marker: u32, v: u32) -> bool {
        let is_fresh = !self.table[cell(marker, v)];
        self.table[cell(marker, v)] = true;
        is_fresh
    }

    // Takes the markers of a set from every node.
    fn clear(&mut self, markers: u32) {
        for marker in 0..8 {
            if is_among(marker, markers) {
                for v in 0..1024 {
                    self.table[cell(marker, v)] = false;
                }
            }
        }
    }

    // A link command: each chosen link of that sign takes a marker from one end, where the other marker stood before the command, to its other end; true
    // when one was put where it was not.
    fn follow(&mut self, tested: u32, marker: u32, sign: Sign, is_back: bool) -> bool {
        let old = self.table;
        let mut is_fresh = false;
        for &word in self.net.words {
            if let Some(link) = self.net.link(word) {
                let (from, to) = if is_back {
                    (link.y, link.x)
                } else {
                    (link.x, link.y)
                };
                if link.sign == sign && old[cell(tested, from)] {
                    is_fresh |= self.put(marker, to);
                }
            }
        }
        is_fresh
    }

    // Runs a command if the budget has one left, else number 6; true when it put a marker where it was not.
    fn step(&mut self, word: u32) -> Result<bool, Refusal> {
        if self.count >= self.budget {
            return Err(Refusal::Budget { count: self.count });
        }
        self.count += 1;
        let is_fresh = match Command::of(self.net.nodes, word) {
            Some(Command::Clear { markers }) => {
                self.clear(markers);
                false
            }
            Some(Command::Set { marker, node }) => self.put(marker, node),
            Some(
                Command::Link {
                    tested,
                    put,
                    sign,
                    is_back,
                },
            ) => self.follow(tested, put, sign, is_back),
            _ => false,
        };
        Ok(is_fresh)
    }

    // A pass over commands; true when one put a marker where it was not.
    fn pass(&mut self, commands: &[u32]) -> Result<bool, Refusal> {
        let mut is_fresh = false;
        for &word in commands {
            is_fresh |= self.step(word)?;
        }
        Ok(is_fresh)
    }

    // Passes until one puts nothing new. Each pass that does runs a command, so there are no more than the budget has.
    fn run_loop(&mut self, commands: &[u32]) -> Result<(), Refusal> {
        for _ in 0..=self.budget {
            if !self.pass(commands)? {
                break;
            }
        }
        Ok(())
    }

    // A whole program without a fault: between beginnings and ends of loops, each second part is inside one.
    fn run(&mut self, program: &[u32]) -> Result<(), Refusal> {
        let mut is_inside = false;
        for part in program.split(|&word| word == LOOP || word == END) {
            if is_inside {
                self.run_loop(part)?;
            } else {
                self.pass(part)?;
            }
            is_inside = !is_inside;
        }
        Ok(())
    }

    // Puts the markers of the first nodes, of which a byte has bit i for the marker i.
    fn unpack(&mut self, marks: &[u8]) {
        for v in 0..1024 {
            for marker in 0..8 {
                let byte = item_at(marks, v as usize, 0);
                self.table[cell(marker, v)] = is_among(marker, byte as u32);
            }
        }
    }

    // The markers of a node as a byte.
    fn byte_of(&self, v: u32) -> u8 {
        let mut byte = 0;
        for marker in 0..8 {
            if self.has(marker, v) {
                byte |= 1 << marker;
            }
        }
        byte
    }

    // The bytes of the first nodes, one for each mark.
    fn pack(&self, marks: &mut [u8]) {
        for (v, mark) in marks.iter_mut().enumerate() {
            *mark = self.byte_of(narrow(v));
        }
    }
}

// Runs a program of the marker unit on lent marks; the first place at fault where there is one.
pub fn unit(net: Net, program: &[u32], budget: u32, marks: &mut [u8]) -> Result<Reply, Refusal> {
    net.check()?;
    let marks = net.nodes.marks(marks)?;
    if let Some(place) = first_wrong(net.nodes, program) {
        return Err(Refusal::Command { place });
    }
    let mut machine = Machine {
        net,
        budget,
        count: 0,
        table: [false; 8192],
    };
    machine.unpack(marks);
    let ran = machine.run(program);
    machine.pack(marks);
    ran?;
    Ok(given(machine.count, 0))
}
