//! Where HDU h stands among HDUs.
ghost use Rattle.std.specs.Prelude.{◌≡◌, length, IfOk, IfErr, OnErr};
ghost use Rattle.fits_session.specs.Session.{IsIndexOf, IsNowhere};

use fits_hdu::Hdu;
use fits_making::Refusal;

/// The index of HDU h. Refusal 1.
pub(crate) fn index_of(hdus: &[Hdu], h: usize) -> Result<usize, Refusal>
    ensures found { IfOk result (λ i. IsIndexOf (length hdus.now) h i) }
    ensures none { OnErr result (IsNowhere (length hdus.now) h) }
    ensures why { IfErr result (λ why. why ≡ Refusal.NoHdu) }
{
    if 1 <= h && h <= hdus.len() {
        Ok(h - 1)
    } else {
        Err(Refusal::NoHdu)
    }
}
