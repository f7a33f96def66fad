//! What standard error is told of a fault.
ghost use Rattle.std.specs.Prelude.{◌≡◌, IfOk, OnOk, ◌++◌};
ghost use Rattle.fits_c.specs.Message.{fault_text, message_of, opening_text};

use fits_cli::Fault;
use fits_session::OpenFault;
use fits_tell::push_number;
use std::alloc::{AllocError, Global};

/// What standard error is told of what ended a run, if a fault did.
pub fn message_of(alloc: Global, fault: Option<Fault>) -> Result<Vec<u8>, AllocError>
    ensures { IfOk result (λ text. text.items ≡ message_of fault) }
{
    match fault {
        Some(fault) => fault_text(alloc, fault),
        None => Ok(Vec::new(alloc)),
    }
}

#[tactic(auto, unfolding(crate::specs::Message::fault_text))]
fn fault_text(alloc: Global, fault: Fault) -> Result<Vec<u8>, AllocError>
    ensures { IfOk result (λ text. text.items ≡ fault_text fault) }
{
    match fault {
        Fault::Refused(why) => opening_text(alloc, why),
        Fault::ScriptTooLong => b"fitsed: script too long".to_vec(alloc),
        Fault::Memory | Fault::ReadFailed | Fault::WriteFailed | Fault::Reread(_) => {
            Ok(Vec::new(alloc))
        }
    }
}

// Why a file doesn't open.
#[tactic(auto, unfolding(crate::specs::Message::opening_text))]
fn opening_text(alloc: Global, why: OpenFault) -> Result<Vec<u8>, AllocError>
    ensures { IfOk result (λ text. text.items ≡ opening_text why) }
{
    let mut text = Vec::new(alloc);
    match why {
        OpenFault::NotFits => text.extend_from_slice(b"fitsed: open refused O1 NotFits")?,
        OpenFault::NoEnd { hdu } => {
            push_number(&mut text, b"fitsed: open refused O2 NoEnd hdu ", hdu as u64)?;
        }
        OpenFault::BadShape { hdu, card } => {
            push_number(
                &mut text,
                b"fitsed: open refused O3 BadShape hdu ",
                hdu as u64,
            )?;
            push_number(&mut text, b" card ", card as u64)?;
        }
        OpenFault::ShortData { hdu } => {
            push_number(
                &mut text,
                b"fitsed: open refused O4 ShortData hdu ",
                hdu as u64,
            )?;
        }
        OpenFault::TooLarge => text.extend_from_slice(b"fitsed: open refused O5 TooLarge")?,
        OpenFault::Memory => {}
    }
    Ok(text)
}
