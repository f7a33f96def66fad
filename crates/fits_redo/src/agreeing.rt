//! Whether a file is what a plan's blocks were read from.
ghost use Rattle.std.specs.Prelude.{◌≡◌, ◌≤◌, ◌+◌, ◌*◌, ◌==◌, ◌&&◌, ◌||◌, nat_le, true, false, ℕ, length, IfOk, OnErr};
ghost use Rattle.fits_redo.specs.Blocks.{block, has_block};
ghost use Rattle.fits_redo.specs.Blocks as blocks;
ghost use Rattle.fits_redo.specs.Pair.{Files};
ghost use Rattle.fits_redo.specs.Plan as plan;

use crate::changed_block::{BLOCK_LEN, ChangedBlock};
use crate::pair::Pair;
use std::io;

/// Whether it has this length, and each byte of each block is the old one or the new one.
pub(crate) fn agrees<P: Pair>(pair: &P, len: u64, blocks: &[ChangedBlock]) -> io::Result<bool>
    ensures value { (f : Files) → P.stands pair.now f
        → IfOk result (λ is. is ≡ plan.agrees len blocks.now f.file) }
    ensures err { OnErr result (P.is_read pair.now ≡ false) }
{
    if pair.len()? != len {
        return Ok(false);
    }
    let mut from = 0;
    for block in blocks {
        if !has_place(from, block, len) || !may_be(pair, block)? {
            return Ok(false);
        }
        from = block.index + 1;
    }
    Ok(true)
}

// Whether a file of this length has the block, and none before `from` was asked for.
fn has_place(from: u64, block: &ChangedBlock, len: u64) -> bool
    ensures { result ≡ (nat_le from block.now.index && nat_le (2880 * block.now.index + 2880) len) }
{
    from <= block.index && block.index < len / 2880
}

// Whether each byte of the block is the old one or the new one.
fn may_be<P: Pair>(pair: &P, block: &ChangedBlock) -> io::Result<bool>
    ensures value { (f : Files) → P.stands pair.now f → has_block block.now.index f.file ≡ true
        → IfOk result (λ is. is ≡ blocks.is_mix block.now.old block.now.new (blocks.block block.now.index f.file)) }
    ensures err { OnErr result (P.is_read pair.now ≡ false) }
{
    let bytes = pair.read_block(block.index)?;
    Ok(is_mix(&block.old, &block.new, &bytes))
}

// Whether each byte is the old one or the new one.
fn is_mix(old: &[u8; 2880], new: &[u8; 2880], bytes: &[u8; 2880]) -> bool
    ensures { result ≡ blocks.is_mix old.now new.now bytes.now }
{
    for i in 0..BLOCK_LEN {
        if !is_either(bytes[i], old[i], new[i]) {
            return false;
        }
    }
    true
}

fn is_either(byte: u8, old: u8, new: u8) -> bool
    ensures { result ≡ (byte == old || byte == new) }
{
    byte == old || byte == new
}
