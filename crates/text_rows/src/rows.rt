use inc_base::{Bytes, Memory};
use std::alloc::Global;
use std::mem;

/// What is asked of each text.
pub trait Answer: Drop {
    /// What is printed under the heading of a text, which is given without its two equals signs and its blank. `Memory` where there
    /// is none for it.
    fn answer(&self, alloc: Global, heading: &[u8], text: &[u8]) -> Result<Bytes, Memory>;
}

/// What a heading begins with.
const HEADING: &[u8; 3] = b"== ";

/// Where the next line stands: before the first heading, right under one, or in a text.
#[derive(Clone, Copy)]
enum Stage {
    Before,
    Under,
    Within,
}

/// The answers so far, and the text that is being read: the lines under a heading, with a line feed between each two.
#[derive(Drop)]
pub struct Rows<A: Answer> {
    alloc: Global,
    asked: A,
    answers: Bytes,
    stage: Stage,
    heading: Bytes,
    text: Bytes,
}

impl<A: Answer> Rows<A> {
    /// Rows of which this is asked, with nothing read yet.
    pub fn new(alloc: Global, asked: A) -> Rows<A> {
        Rows {
            alloc,
            asked,
            answers: Bytes::new(alloc),
            stage: Stage::Before,
            heading: Bytes::new(alloc),
            text: Bytes::new(alloc),
        }
    }

    /// Takes the next line, which has no line feed. A heading begins with `== `; what stands before the first is passed over.
    /// A line `times`, a number and a text stands for so many of that text.
    pub fn read(&mut self, line: &[u8]) -> Result<(), Memory> {
        if line.starts_with(HEADING) {
            return self.head(line);
        }
        match self.stage {
            Stage::Before => return Ok(()),
            Stage::Under => self.stage = Stage::Within,
            Stage::Within => self.text.append(b"\n")?,
        }
        match line.strip_prefix(b"times ") {
            None => self.text.append(line),
            Some(many) => self.repeat(many),
        }
    }

    fn repeat(&mut self, many: &[u8]) -> Result<(), Memory> {
        let (count, text) = count_and_text(many);
        for _ in 0..count {
            self.text.append(text)?;
        }
        Ok(())
    }

    fn head(&mut self, line: &[u8]) -> Result<(), Memory> {
        self.answer()?;
        self.answers.append(line)?;
        self.answers.append(b"\n")?;
        let heading = match line.strip_prefix(HEADING) {
            Some(heading) => Bytes::of(self.alloc, heading)?,
            None => Bytes::new(self.alloc),
        };
        self.heading = heading;
        self.stage = Stage::Under;
        Ok(())
    }

    // Ends the text at hand, if there is one, with its answer.
    fn answer(&mut self) -> Result<(), Memory> {
        match self.stage {
            Stage::Before => Ok(()),
            Stage::Under | Stage::Within => {
                let text = mem::replace(&mut self.text, Bytes::new(self.alloc));
                let lines = self
                    .asked
                    .answer(self.alloc, self.heading.as_slice(), text.as_slice())?;
                self.answers.append(lines.as_slice())
            }
        }
    }

    /// Each heading, and under it the answer to its text.
    pub fn finish(mut self) -> Result<Bytes, Memory> {
        self.answer()?;
        let Rows {
            alloc: _,
            asked: _,
            answers,
            stage: _,
            heading: _,
            text: _,
        } = self;
        Ok(answers)
    }
}

// The number that digits spell, and what stands behind it, from a blank on.
fn count_and_text(many: &[u8]) -> (u32, &[u8]) {
    let mut count = 0_u32;
    for (at, digit) in many.iter().enumerate() {
        if *digit == b' ' {
            return (count, &many[at..]);
        }
        count = count
            .wrapping_mul(10)
            .wrapping_add(u32::from(digit.wrapping_sub(b'0')));
    }
    (count, b"")
}
