//! Bits of words.
ghost use Rattle.std.specs.Prelude.{◌≡◌, ◌≤◌, take, drop, IfOk, Some};
ghost use Rattle.cspace_core.specs.Bits.{low_bits as low_bits_of};
ghost use Rattle.command_trace.specs.Ways as spec;

use std::alloc::{AllocError, Global};
use std::fmt;

/// The low bits of a word, the top one first.
pub fn low_bits(alloc: Global, word: u64, count: u32) -> Result<Vec<u64>, AllocError>
    requires { count ≤ 64 }
    ensures { IfOk result (λ bits. bits.items ≡ low_bits_of count word) }
{
    let mut bits = Vec::with_capacity(alloc, count as usize)?;
    let mut left = count;
    while left > 0 {
        left -= 1;
        bits.push((word >> left) % 2)?;
    }
    Ok(bits)
}

/// The first bits of some, or all where they are fewer, and those behind them.
pub fn split(bits: &[u64], count: u32) -> (&[u64], &[u64])
    ensures first { result.0.now ≡ take count bits.now }
    ensures rest { result.1.now ≡ drop count bits.now }
{
    let count = (count as usize).min(bits.len());
    (&bits[..count], &bits[count..])
}

/// Bits as digits.
#[derive(Clone, Copy)]
pub struct BitsText<'a>(pub &'a [u64]);

impl fmt::Display for BitsText<'_> {
    ghost output = { λ b. Some (spec.bits_text b.0.now) };

    fn fmt<W: fmt::Write>(&self, f: &mut fmt::Formatter<W>) -> fmt::Result {
        for bit in self.0 {
            write!(f, "{bit}")?;
        }
        Ok(())
    }
}
