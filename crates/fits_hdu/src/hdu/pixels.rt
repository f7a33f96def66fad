//! The pixels of an HDU that is an image of integers.
use super::Hdu;
use crate::pixel_fault::PixelFault;
use fits_image::Kind;
use fits_pixels::ValueSummary;
use fits_plane::{LentPaint, Painting, is_rectangle, rectangle_len};
use std::alloc::Global;

impl Hdu {
    ghost use Rattle.std.specs.Prelude.{◌≡◌, ◌≤◌, ◌<◌, ◌+◌, ◌^◌, ℕ, true, length, None, Some, Ok, Err, IsOk, IfOk, IfErr, OnOk, OnErr};
    ghost use Rattle.fits_pixels.specs.Pixels.{IsStorable};
    ghost use Rattle.fits_plane.specs.Paint.{can_store_paint, has_count, painted_number};
    ghost use Rattle.fits_plane.specs.Rectangle.{lies_within, rectangle_size, IsRectangle};
    ghost use Rattle.fits_image.specs.Kind.{kind_in, offset_of, width_of};
    ghost use Rattle.fits_hdu.specs.Pixels.{painted, rect_of, RectFails};
    ghost use Rattle.fits_passing.specs.Stats.{stats_of};
    ghost use Rattle.fits_hdu.specs.State.{parts_of, HasPixels, HasStats, IsDescribed};
    ghost use Rattle.fits_hdu.specs.Work.{IsPatchedIn};

    /// The statistics of its pixels, where it is an image of integers. It takes no memory, and
    /// reads no card and no pixel.
    #[tactic(auto, using(crate::proofs::PixelLemmas::pixel_steps))]
    pub fn stats(&self) -> Option<ValueSummary>
        requires { HasStats self.now }
        ensures { result ≡ stats_of self.now.header.shape (parts_of self.now) }
    {
        let kind = self.kind?;
        Some(self.unit.value_stats(kind.offset()))
    }

    /// The values of a rectangle of pixels, which are in memory, in file order. Corners count from 1, and
    /// each pixel is read once.
    #[tactic(auto, using(crate::proofs::PixelLemmas::pixel_steps))]
    pub fn rect(&mut self, alloc: Global, lo: &[u64], hi: &[u64]) -> Result<Vec<i128>, PixelFault>
        requires { HasPixels lo.now hi.now self.old }
        ensures ok { IfOk result (λ values. rect_of
            self.old.header.shape lo.now hi.now (parts_of self.old) ≡ Ok values.items) }
        ensures err { IfErr result (RectFails (rect_of
            self.old.header.shape lo.now hi.now (parts_of self.old))) }
        ensures work { OnOk result (self.new ≡ record self.old {
          plane = record self.old.plane {
            reads = self.old.plane.reads + rectangle_size lo.now hi.now;
          };
        }) }
        ensures same { OnErr result (self.new ≡ self.old) }
    {
        let Some(kind) = self.kind else {
            return Err(PixelFault::NotImage);
        };
        let axes = self.header.shape().axes.as_slice();
        if !is_rectangle(axes, lo, hi) {
            return Err(PixelFault::BadRectangle);
        }
        let Ok(values) = self.unit.rect(alloc, axes, lo, hi, kind.offset()) else {
            return Err(PixelFault::Memory);
        };
        Ok(values)
    }

    /// Paints a rectangle of pixels, which are in memory. Corners count from 1.
    ///
    /// It takes no memory. Of the data unit it scans the blocks that hold a byte of the rectangle.
    #[tactic(auto, using(crate::proofs::PixelLemmas::pixel_steps))]
    pub fn paint(&mut self, lo: &[u64], hi: &[u64], paint: &LentPaint) -> Result<(), PixelFault>
        requires { HasPixels lo.now hi.now self.old }
        ensures ok { OnOk result (painted
            self.old.header.shape lo.now hi.now paint.now (parts_of self.old)
            ≡ Ok (parts_of self.new)) }
        ensures err { IfErr result (λ why. painted self.old.header.shape lo.now hi.now paint.now
            (parts_of self.old) ≡ Err why) }
        ensures same { OnErr result (self.new ≡ self.old) }
        ensures rest { self.new ≡ record self.old { plane = self.new.plane } }
        ensures work { OnOk result (IsPatchedIn lo.now hi.now self.old self.new) }
        ensures described { IsDescribed self.old }
    {
        let kind = self.paintable(lo, hi, paint)?;
        let axes = self.header.shape().axes.as_slice();
        let offset = kind.offset();
        self.unit.paint_rect(&Painting {
            axes,
            lo,
            hi,
            paint,
            offset,
        });
        Ok(())
    }

    /// Whether a rectangle of pixels may be painted so, or the first test that fails. It takes no
    /// memory, and nothing is read.
    #[tactic(auto, using(crate::proofs::PixelLemmas::pixel_steps))]
    pub fn may_paint(&self, lo: &[u64], hi: &[u64], paint: &LentPaint) -> Result<(), PixelFault>
        ensures ok { OnOk result (IsOk (painted
            self.now.header.shape lo.now hi.now paint.now (parts_of self.now))) }
        ensures err { IfErr result (λ why. painted self.now.header.shape lo.now hi.now paint.now
            (parts_of self.now) ≡ Err why) }
    {
        self.paintable(lo, hi, paint)?;
        Ok(())
    }

    // The kind of its pixels, where a rectangle of them may be painted so.
    #[tactic(auto, using(crate::proofs::PixelLemmas::pixel_steps))]
    fn paintable(&self, lo: &[u64], hi: &[u64], paint: &LentPaint) -> Result<Kind, PixelFault>
        ensures kind { IfOk result (λ kind. kind_in self.now.header.shape
            self.now.header.header.cards ≡ Some kind) }
        ensures within { OnOk result (lies_within self.now.header.shape.axes lo.now hi.now ≡ true) }
        ensures rectangle { OnOk result (IsRectangle self.now.header.shape.axes lo.now hi.now) }
        ensures count { OnOk result (has_count paint.now (rectangle_size lo.now hi.now) ≡ true) }
        ensures can { IfOk result (λ kind.
            can_store_paint (width_of kind) (offset_of kind) paint.now ≡ true) }
        ensures numbers { IfOk result (λ kind. (k : ℕ) → k < rectangle_size lo.now hi.now
            → IsStorable (width_of kind) (painted_number paint.now (offset_of kind) k)) }
        ensures err { IfErr result (λ why. painted self.now.header.shape lo.now hi.now paint.now
            (parts_of self.now) ≡ Err why) }
    {
        let Some(kind) = self.kind else {
            return Err(PixelFault::NotImage);
        };
        let axes = self.header.shape().axes.as_slice();
        if !is_rectangle(axes, lo, hi) {
            return Err(PixelFault::BadRectangle);
        }
        // The layout says that the pixels are few.
        let _layout = self.unit.layout();
        if !paint.has_count(rectangle_len(axes, lo, hi)) {
            return Err(PixelFault::WrongCount);
        }
        let offset = kind.offset();
        if !paint.is_storable(kind.width(), offset) {
            return Err(PixelFault::OutOfRange);
        }
        Ok(kind)
    }
}
