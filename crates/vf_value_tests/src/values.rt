//! Values as text.

use std::alloc::{AllocError, Global};
use vf_fours::{Bit, Fours};

/// The bits of a value, as far as they are read.
#[derive(Drop)]
pub struct Bits {
    width: u32,
    ones: u128,
    unknown: u128,
}

impl Bits {
    pub fn none() -> Bits {
        Bits {
            width: 0,
            ones: 0,
            unknown: 0,
        }
    }

    /// One bit more, below the others.
    pub fn push(&mut self, bit: u8) {
        self.width = self.width.saturating_add(1);
        self.ones = self.ones << 1 | u128::from(bit == b'1' || bit == b'x');
        self.unknown = self.unknown << 1 | u128::from(bit == b'x' || bit == b'z');
    }

    /// The bits of a part, as `01xz` or `x^8`.
    fn push_part(&mut self, part: &str) {
        if let Some((bit, count)) = part.split_once('^') {
            for _ in 0..count.parse::<u32>().unwrap_or(0) {
                self.push(bit.as_bytes().first().copied().unwrap_or(b'0'));
            }
        } else {
            for bit in part.as_bytes() {
                self.push(*bit);
            }
        }
    }

    /// The value, where it has 1 to 128 bits.
    pub fn value(&self, signed: bool) -> Option<Fours> {
        if 1 <= self.width && self.width <= 128 {
            Some(Fours::new(128, false, self.ones, self.unknown).resize(self.width, signed))
        } else {
            None
        }
    }
}

/// The value that a text stands for.
pub fn value(text: &str) -> Option<Fours> {
    let (mark, parts) = text.split_once('b')?;
    let mut bits = Bits::none();
    for part in parts.split('_') {
        bits.push_part(part);
    }
    bits.value(mark == "'s")
}

pub fn letter(bit: Bit) -> u8 {
    match bit {
        Bit::Zero => b'0',
        Bit::One => b'1',
        Bit::X => b'x',
        Bit::Z => b'z',
    }
}

/// Bits alike that stand side by side.
#[derive(Clone, Copy)]
struct Run {
    bit: u8,
    count: u32,
}

/// Writes bits alike: eight and more as a part of their own.
fn push_run(run: Run, text: &mut String) -> Result<(), AllocError> {
    let bit = char::from(run.bit);
    if run.count >= 8 {
        write!(text, "_{bit}^{}_", run.count)?;
    } else {
        for _ in 0..run.count {
            text.push(bit)?;
        }
    }
    Ok(())
}

/// The text of a value.
pub fn shown(alloc: Global, value: Fours) -> Result<String, AllocError> {
    let mut text = String::new(alloc);
    let mut run = Run {
        bit: b'0',
        count: 0,
    };
    for at in 0..value.width() {
        let bit = letter(value.bit(value.width() - 1 - at));
        if bit != run.bit {
            push_run(run, &mut text)?;
            run = Run { bit, count: 0 };
        }
        run.count = run.count.saturating_add(1);
    }
    push_run(run, &mut text)?;
    let mark = if value.is_signed() { "s" } else { "" };
    format!(in alloc; "'{mark}b{}", text.as_str().trim_matches('_'))
}
