//! What surrounds a call.

use inc_fs::Chance;

/// What is beside the text of a heading (`shapes`).
#[derive(Clone, Copy)]
pub enum Shape {
    Plain,
    Modules(u32),
    Items(u32),
    Lets(u32),
    Bytes(u32),
}

/// `steps` asks for the steps; `beside` lets another session work between them. `act` and two numbers let the act of the first number
/// fail, after as many bytes as the second says. `source` and a number let the source fail at that read, `out` and `image` let the sink
/// fail after so many bytes. `modules`, `items`, `lets` and `bytes` and a number give the text a shape. `plain` asks for nothing of these.
#[derive(Clone, Copy)]
pub struct Case {
    pub steps: bool,
    pub beside: bool,
    pub act: u32,
    pub cut: u32,
    pub source: u32,
    pub out: u32,
    pub image: u32,
    pub shape: Shape,
}

/// More than there are acts, reads or bytes: nothing fails.
const NEVER: u32 = u32::MAX;

/// Nothing fails, and nothing is asked for.
pub const PLAIN: Case = Case {
    steps: false,
    beside: false,
    act: NEVER,
    cut: 0,
    source: NEVER,
    out: NEVER,
    image: NEVER,
    shape: Shape::Plain,
};

impl Case {
    /// The case of these parts.
    pub fn of(parts: &str) -> Case {
        let mut case = PLAIN;
        for part in parts.split(", ") {
            case = case.with(part);
        }
        case
    }

    fn with(self, part: &str) -> Case {
        let (word, number) = match part.split_once(' ') {
            Some((word, number)) => (word, number),
            None => (part, ""),
        };
        match word {
            "steps" => Case {
                steps: true,
                ..self
            },
            "beside" => Case {
                beside: true,
                ..self
            },
            "act" => self.with_act(number),
            "source" => Case {
                source: number_of(number),
                ..self
            },
            "out" => Case {
                out: number_of(number),
                ..self
            },
            "image" => Case {
                image: number_of(number),
                ..self
            },
            _ => Case {
                shape: shape_of(word, number_of(number)),
                ..self
            },
        }
    }

    fn with_act(self, numbers: &str) -> Case {
        let (act, cut) = match numbers.split_once(' ') {
            Some((act, cut)) => (act, cut),
            None => (numbers, ""),
        };
        Case {
            act: number_of(act),
            cut: number_of(cut),
            ..self
        }
    }

    /// What the outside decides of an own act: moment 35, random part 0, and whether it fails.
    pub fn chance(&self, act: u32) -> Chance {
        Chance {
            moment: 35,
            random: 0,
            fails: if act == self.act {
                Some(self.cut)
            } else {
                None
            },
        }
    }
}

fn shape_of(word: &str, count: u32) -> Shape {
    match word {
        "modules" => Shape::Modules(count),
        "items" => Shape::Items(count),
        "lets" => Shape::Lets(count),
        "bytes" => Shape::Bytes(count),
        _ => Shape::Plain,
    }
}

fn number_of(digits: &str) -> u32 {
    let mut count: u32 = 0;
    for byte in digits.as_bytes() {
        let digit = u32::from(byte.wrapping_sub(b'0'));
        count = count.wrapping_mul(10).wrapping_add(digit);
    }
    count
}
