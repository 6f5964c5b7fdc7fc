//! Builds of texts that are drawn by a seed.

use crate::asked::compiler;
use crate::left::Left;
use crate::print::put_number;
use inc_base::{Bytes, Memory};
use rand_core::{Rng, SeedableRng};
use rand_pcg::Pcg32;
use std::alloc::Global;

/// How many edits are drawn, and by which seed.
const EDITS: u32 = 300;

const SEED: u64 = 2026;

/// A text whose lines may have several forms, with `~` between each two: one form of each line stands in it, and each edit draws a line's form anew.
/// It is built after each edit over what the build before it left; how many builds were not the clean build is printed, and how many units were
/// kept in some build.
pub fn put_drawn(alloc: Global, to: &mut Bytes, forms: &[u8]) -> Result<(), Memory> {
    let mut random = Pcg32::seed_from_u64(SEED);
    let mut drawn = drawn_of(alloc, forms)?;
    let mut left = Left::nothing(alloc);
    let mut others: u64 = 0;
    let mut kept: u64 = 0;
    for _ in 0..EDITS {
        draw(&mut random, &mut drawn);
        let text = text_of(alloc, forms, &drawn)?;
        let (next, done) = left.build(alloc, text.as_slice(), compiler())?;
        left = next;
        if !done.is_clean {
            others = others.wrapping_add(1);
        }
        if done.emitted < u64::from(done.units) {
            kept = kept.wrapping_add(1);
        }
    }
    put_number(to, b"builds ", u64::from(EDITS))?;
    put_number(to, b", not the clean build ", others)?;
    let some: &[u8] = if kept == 0 {
        b"\nnone kept a unit\n"
    } else {
        b"\nsome kept a unit\n"
    };
    to.append(some)
}

// The first form of each line.
fn drawn_of(alloc: Global, forms: &[u8]) -> Result<Vec<u32>, Memory> {
    let mut drawn = Vec::new(alloc);
    for _ in forms.split(|byte| *byte == b'\n') {
        drawn.push(0)?;
    }
    Ok(drawn)
}

fn draw(random: &mut Pcg32, drawn: &mut Vec<u32>) {
    let line = random.next_u32();
    let form = random.next_u32();
    let count = drawn.len();
    if count == 0 {
        return;
    }
    if let Some(place) = drawn.get_mut(line as usize % count) {
        *place = form;
    }
}

fn text_of(alloc: Global, forms: &[u8], drawn: &[u32]) -> Result<Bytes, Memory> {
    let mut text = Bytes::new(alloc);
    for (i, line) in forms.split(|byte| *byte == b'\n').enumerate() {
        let number = match drawn.get(i) {
            Some(number) => *number,
            None => 0,
        };
        text.append(form_of(line, number))?;
        text.append(b"\n")?;
    }
    Ok(text)
}

// The form of a line with a number, which counts on from the first again behind the last.
fn form_of(line: &[u8], number: u32) -> &[u8] {
    let count = line.split(|byte| *byte == b'~').count();
    if count == 0 {
        return line;
    }
    match line
        .split(|byte| *byte == b'~')
        .nth(number as usize % count)
    {
        Some(form) => form,
        None => line,
    }
}
