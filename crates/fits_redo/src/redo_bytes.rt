//! The bytes of a redo file.
ghost use Rattle.std.specs.Prelude.{◌≡◌, ◌<◌, ◌+◌, ◌*◌, ◌^◌, ◌++◌, length, IfOk, OnOk};
ghost use Rattle.std.specs.List.{flat_map};
ghost use Rattle.fits_redo.specs.Redo.{entry, head};

use crate::changed_block::ChangedBlock;
use crate::number::big_endian;
use crate::plan::Plan;
use std::alloc::{AllocError, Global};

/// Its head, with a shut gate.
pub(crate) fn head_bytes(alloc: Global, plan: &Plan) -> Result<Vec<u8>, AllocError>
    ensures value { IfOk result (λ bytes. bytes.items
        ≡ head 0 plan.now.len (length plan.now.blocks.items)) }
    ensures len { IfOk result (λ bytes. length bytes.items ≡ 24) }
    ensures small { OnOk result (plan.now.len < 2 ^ 64) }
    ensures few { OnOk result (length plan.now.blocks.items < 2 ^ 64) }
{
    let mut bytes = Vec::new(alloc);
    bytes.push(0)?;
    bytes.extend_from_slice(b"FITSED1")?;
    bytes.extend_from_slice(&big_endian(plan.len))?;
    bytes.extend_from_slice(&big_endian(plan.blocks.len() as u64))?;
    Ok(bytes)
}

/// Its entries.
pub(crate) fn entry_bytes(alloc: Global, blocks: &[ChangedBlock]) -> Result<Vec<u8>, AllocError>
    ensures value { IfOk result (λ bytes. bytes.items ≡ flat_map entry blocks.now) }
    ensures len { IfOk result (λ bytes. length bytes.items ≡ 5768 * length blocks.now) }
{
    let mut bytes = Vec::new(alloc);
    for block in blocks {
        add_entry(&mut bytes, block)?;
    }
    Ok(bytes)
}

// The entry of one more block.
fn add_entry(bytes: &mut Vec<u8>, block: &ChangedBlock) -> Result<(), AllocError>
    ensures value { OnOk result (bytes.new.items ≡ bytes.old.items ++ entry block.now) }
    ensures len { OnOk result (length bytes.new.items ≡ length bytes.old.items + 5768) }
{
    bytes.extend_from_slice(&big_endian(block.index))?;
    bytes.extend_from_slice(&block.old)?;
    bytes.extend_from_slice(&block.new)?;
    Ok(())
}
