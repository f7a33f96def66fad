ghost use Rattle.std.specs.Prelude.{◌≡◌, replicate, IfOk};

use crate::converting::{convert_run, converts_run};
use crate::data_bytes::DataBytes;
use crate::leaves::{leaves_of, root_of, zero_leaves};
use crate::painting::{Painting, paint_rectangle};
use crate::pixel_reads::read_rows;
use crate::plane_room::PlaneRoom;
use crate::rectangle::rectangle_len;
use crate::tree::Tree;
use fits_card::BLOCK_LEN;
use fits_pixels::{Layout, Leaf, PixelSummary, ValueSummary, read_bytes};
use fits_stream::{Count, Sink};
use std::alloc::{AllocError, Global};
use std::io;
use std::marker::Model;

/// A data unit: its bytes with a layout, and the summary of each block.
///
/// Pixels count from 0, the corners of a rectangle from 1. Contracts see the bytes, the layout, and
/// how many blocks were scanned, pixels read and nodes joined so far.
#[derive(Drop)]
pub struct Plane {
    store: DataBytes,
    layout: Layout,
    tree: Tree<Leaf>,
}

impl Model for Plane {
    ghost use Rattle.std.specs.Prelude.{◌≡◌, ◌*◌, length};
    ghost use Rattle.fits_pixels.specs.Layout.{IsLayout};
    ghost use Rattle.fits_plane.specs.Leaves.{AreLeaves};
    ghost use Rattle.fits_plane.specs.Plane.{PlaneState};

    ghost Value = { PlaneState };

    ghost view = { λ p. record {
      bytes = p.store.bytes;
      layout = p.layout;
      scans = p.store.scans;
      reads = p.store.reads;
      joins = p.tree.joins;
    } };

    ghost invariant = { λ p. record {
      whole : length p.store.bytes ≡ 2880 * length p.tree.leaves;
      layout : IsLayout p.layout p.store.bytes;
      leaves : AreLeaves p.layout p.store.bytes p.tree.leaves;
    } };
}

impl Plane {
    ghost use Rattle.std.specs.Prelude.{◌≡◌, ◌≤◌, ◌<◌, ◌*◌, ◌+◌, ◌%◌, ◌-ℤ◌, ◌^◌, ◌↔◌, [], ℕ, pos, true, drop, length, replicate, slice_index_or, unsigned_abs, All, IsTrue, IfOk, OnOk, OnErr};
    ghost use Rattle.std.specs.Option.{option_map};
    ghost use Rattle.fits_stream.specs.Stream.{Prints, PrintsFront};
    ghost use Rattle.fits_sum.specs.Words.{word_total};
    ghost use Rattle.fits_pixels.specs.Statistics.{statistics, value_statistics};
    ghost use Rattle.fits_pixels.specs.Pixels.{pixel, pixels, IsWidth};
    ghost use Rattle.fits_pixels.specs.Layout.{IsLayout, block_count, block_pixels};
    ghost use Rattle.fits_plane.specs.Converting.{can_store_run, kept_numbers, run_made};
    ghost use Rattle.fits_plane.specs.Painting.{Paints, Suits};
    ghost use Rattle.fits_plane.specs.Rectangle.{IsRectangle, product, rectangle_size, rectangle_values};

    /// The data unit of a copy of these bytes.
    pub fn open(alloc: Global, bytes: &[u8], layout: Layout) -> Result<Plane, AllocError>
        requires layout { IsLayout layout bytes.now }
        ensures bytes { IfOk result (λ p. p.bytes ≡ bytes.now) }
        ensures layout { IfOk result (λ p. p.layout ≡ layout) }
        ensures scans { IfOk result (λ p. p.scans ≡ block_count bytes.now) }
        ensures reads { IfOk result (λ p. p.reads ≡ 0) }
        ensures joins { IfOk result
            (λ p. (d : ℕ) → block_count bytes.now ≤ 2 ^ d → p.joins ≤ 2 ^ d) }
    {
        let copy = Vec::from_slice(alloc, bytes)?;
        Plane::of(alloc, copy, layout)
    }

    /// The data unit of bytes that are handed over.
    pub fn of(alloc: Global, bytes: Vec<u8>, layout: Layout) -> Result<Plane, AllocError>
        requires layout { IsLayout layout bytes.items }
        ensures bytes { IfOk result (λ p. p.bytes ≡ bytes.items) }
        ensures layout { IfOk result (λ p. p.layout ≡ layout) }
        ensures scans { IfOk result (λ p. p.scans ≡ block_count bytes.items) }
        ensures reads { IfOk result (λ p. p.reads ≡ 0) }
        ensures joins { IfOk result
            (λ p. (d : ℕ) → block_count bytes.items ≤ 2 ^ d → p.joins ≤ 2 ^ d) }
    {
        let blocks = bytes.len() / BLOCK_LEN;
        let mut store = DataBytes::new(bytes);
        let leaves = leaves_of(alloc, &mut store, layout, blocks)?;
        let tree = Tree::open(alloc, leaves)?;
        Ok(Plane {
            store,
            layout,
            tree,
        })
    }

    /// The data unit of so many bytes, each zero.
    ///
    /// Blocks that are full of pixels are all the same, so one of them is scanned.
    pub fn zeroed(alloc: Global, len: usize, layout: Layout) -> Result<Plane, AllocError>
        requires layout { IsLayout layout (replicate len 0) }
        ensures bytes { IfOk result (λ p. p.bytes ≡ replicate len 0) }
        ensures layout { IfOk result (λ p. p.layout ≡ layout) }
        ensures scans { IfOk result (λ p. p.scans ≤ block_count (replicate len 0)) }
        ensures reads { IfOk result (λ p. p.reads ≡ 0) }
        ensures joins { IfOk result
            (λ p. (d : ℕ) → block_count (replicate len 0) ≤ 2 ^ d → p.joins ≤ 2 ^ d) }
    {
        let mut store = DataBytes::new(zeros(alloc, len)?);
        let leaves = zero_leaves(alloc, &mut store, layout, len / BLOCK_LEN)?;
        let tree = Tree::open(alloc, leaves)?;
        Ok(Plane {
            store,
            layout,
            tree,
        })
    }

    /// What stands for a data unit that isn't in memory: no byte.
    pub fn away(alloc: Global) -> Result<Plane, AllocError>
        ensures { IfOk result (λ p. p.bytes ≡ []) }
    {
        let layout = Layout {
            width: 0,
            pixels: 0,
            used: 0,
            fill: 0,
            blank: None,
        };
        Plane::of(alloc, Vec::new(alloc), layout)
    }

    /// Counts on from the scans of its blocks as they passed by. Each was scanned once since.
    pub fn count_on(&mut self, passed: Count)
        requires { self.old.scans ≡ block_count self.old.bytes }
        ensures { self.new ≡ record self.old { scans = passed.total + self.old.scans } }
    {
        self.store.count_on(passed);
    }

    /// Counts on from what was done on the same bytes elsewhere.
    pub fn go_on(&mut self, scans: Count, reads: Count, joins: Count)
        ensures { self.new ≡ record self.old {
          scans = scans.total + self.old.scans;
          reads = reads.total + self.old.reads;
          joins = joins.total + self.old.joins;
        } }
    {
        self.store.go_on(scans, reads);
        self.tree.go_on(joins);
    }

    pub fn layout(&self) -> Layout
        ensures value { result ≡ self.now.layout }
        ensures fits { IsLayout result self.now.bytes }
    {
        self.layout
    }

    /// How many bytes it has, with the fill.
    pub fn byte_len(&self) -> usize
        ensures { result ≡ length self.now.bytes }
    {
        self.store.len()
    }

    /// Stored pixel i. The read is counted.
    pub fn pixel(&mut self, i: usize) -> i64
        requires within { i < self.old.layout.pixels }
        ensures value { result ≡ pixel self.old.layout.width self.old.bytes i }
        ensures work { self.new ≡ record self.old { reads = self.old.reads + 1 } }
    {
        self.store.pixel(self.layout.width, i)
    }

    /// The statistics of its stored numbers.
    pub fn stats(&self) -> PixelSummary
        ensures { result ≡ statistics self.now.layout.blank
            (pixels self.now.layout.width self.now.bytes 0 self.now.layout.pixels) }
    {
        root_of(&self.tree, &self.store, self.layout).first
    }

    /// The statistics of its values, each a stored number and the offset.
    pub fn value_stats(&self, offset: i128) -> ValueSummary
        requires { unsigned_abs offset ≤ 2 ^ 63 }
        ensures { result ≡ value_statistics offset self.now.layout.blank
            (pixels self.now.layout.width self.now.bytes 0 self.now.layout.pixels) }
    {
        self.store.are_bytes();
        self.stats().with_offset(offset)
    }

    /// The total of its words, with the fill.
    pub fn total(&self) -> u64
        ensures { result ≡ word_total self.now.bytes }
    {
        root_of(&self.tree, &self.store, self.layout).second.total
    }

    /// Whether each byte of the fill is the one that it should be.
    pub fn fill_ok(&self) -> bool
        ensures { IsTrue result
            ↔ All (λ b. b ≡ self.now.layout.fill) (drop self.now.layout.used self.now.bytes) }
    {
        self.store.ends_in(self.layout.used, self.layout.fill)
    }

    /// Gives the pixels of a rectangle the values of a paint, each less the offset. It takes no memory.
    pub fn paint_rect(&mut self, painting: &Painting)
        requires { Suits self.old.layout painting.now }
        ensures { Paints painting.now self.old self.new }
    {
        paint_rectangle(&mut self.tree, &mut self.store, self.layout, painting);
    }

    /// The values of a rectangle in file order, each its stored number and the offset.
    pub fn rect(
        &mut self,
        alloc: Global,
        axes: &[u64],
        lo: &[u64],
        hi: &[u64],
        offset: i128,
    ) -> Result<Vec<i128>, AllocError>
        requires rectangle { IsRectangle axes.now lo.now hi.now }
        requires all { product axes.now ≡ self.old.layout.pixels }
        requires offset { unsigned_abs offset ≤ 2 ^ 64 }
        ensures value { IfOk result (λ v. v.items
            ≡ rectangle_values self.old.layout.width self.old.bytes axes.now lo.now hi.now offset) }

        // Each of its pixels is read once. The memory is had before any is.
        ensures work { OnOk result (self.new
            ≡ record self.old { reads = self.old.reads + rectangle_size lo.now hi.now }) }
        ensures err { OnErr result (self.new ≡ self.old) }
    {
        let width = self.layout.width;
        let size = rectangle_len(axes, lo, hi) as usize;
        let mut values = Vec::with_capacity(alloc, size)?;
        read_rows(&mut values, &mut self.store, width, axes, lo, hi, offset);
        Ok(values)
    }

    /// Whether pixels of so many bytes can store the numbers of the first `count` pixels, blank or
    /// not, each with the shift (FITS Standard 4.0, sections 3.3.2 and 4.4.2.5).
    ///
    /// The width is 1, 2, 4 or 8. The shift is the offset of the values less that which they are to
    /// have, and no further from 0 than 2^64.
    pub fn converts(&mut self, width: usize, count: usize, shift: i128) -> bool
        requires width { IsWidth width }
        requires within { count ≤ self.old.layout.pixels }
        requires shift { unsigned_abs shift ≤ 2 ^ 64 }
        ensures value { result ≡ can_store_run width
            (kept_numbers self.old.layout.width self.old.bytes count shift) }

        ensures bytes { self.new.bytes ≡ self.old.bytes }
        ensures layout { self.new.layout ≡ self.old.layout }
        ensures scans { self.new.scans ≡ self.old.scans }
        ensures joins { self.new.joins ≡ self.old.joins }

        // Full blocks are known by what is kept of them, so only pixels past them are read.
        ensures more_reads { self.old.reads ≤ self.new.reads }
        ensures reads { self.new.reads ≤ self.old.reads + count }
        ensures rest { self.new.reads
            ≤ self.old.reads + count % block_pixels self.old.layout.width }
    {
        if count == 0 {
            return true;
        }
        converts_run(
            width,
            &mut self.store,
            self.layout,
            &self.tree,
            count,
            shift,
        )
    }

    /// `len` bytes that store the numbers of the first `count` pixels anew, at this width and each
    /// with the shift, and zeros behind them. None where `converts` is false.
    ///
    /// `Err` is want of memory for the new bytes, and then nothing has changed.
    pub fn converted(
        &mut self,
        alloc: Global,
        width: usize,
        count: usize,
        shift: i128,
        len: usize,
    ) -> Result<Option<Vec<u8>>, AllocError>
        requires width { IsWidth width }
        requires within { count ≤ self.old.layout.pixels }
        requires room { count * width ≤ len }
        requires shift { unsigned_abs shift ≤ 2 ^ 64 }
        ensures value { IfOk result (λ made. option_map (λ v. v.items) made ≡ run_made width
            (kept_numbers self.old.layout.width self.old.bytes count shift) len) }

        ensures bytes { self.new.bytes ≡ self.old.bytes }
        ensures layout { self.new.layout ≡ self.old.layout }
        ensures scans { self.new.scans ≡ self.old.scans }
        ensures joins { self.new.joins ≡ self.old.joins }

        // Each of these pixels is read once at most. The memory is had before any is.
        ensures more_reads { self.old.reads ≤ self.new.reads }
        ensures reads { self.new.reads ≤ self.old.reads + count }
        ensures err { OnErr result (self.new ≡ self.old) }
    {
        let mut made = zeros(alloc, len)?;
        if count == 0 {
            return Ok(Some(made));
        }
        let stored = convert_run(
            made.as_mut_slice(),
            width,
            &mut self.store,
            self.layout,
            &self.tree,
            count,
            shift,
        );
        if !stored {
            return Ok(None);
        }
        read_bytes(made.as_slice());
        Ok(Some(made))
    }

    /// Makes this the data unit of bytes that are handed over. Each of their blocks is scanned, and
    /// its counts go on. It takes no memory: `PlaneRoom` was asked for before.
    pub fn renew(&mut self, room: PlaneRoom, bytes: Vec<u8>, layout: Layout)
        requires layout { IsLayout layout bytes.items }
        requires room { room ≡ block_count bytes.items }
        ensures bytes { self.new.bytes ≡ bytes.items }
        ensures layout { self.new.layout ≡ layout }
        ensures reads { self.new.reads ≡ self.old.reads }
        ensures scans { self.new.scans ≡ self.old.scans + block_count bytes.items }
        ensures more_joins { self.old.joins ≤ self.new.joins }
        ensures joins { (d : ℕ) → block_count bytes.items ≤ 2 ^ d
            → self.new.joins ≤ self.old.joins + 2 ^ d }
    {
        self.tree.renew(room.leaves());
        self.store.renew(bytes);
        self.layout = layout;
        self.store.scan_all(layout, &mut self.tree);
    }

    /// Makes this the stored number of undefined pixels. It takes no memory.
    pub fn set_blank(&mut self, blank: Option<i64>)
        ensures bytes { self.new.bytes ≡ self.old.bytes }
        ensures layout { self.new.layout ≡ record self.old.layout { blank = blank } }
        ensures reads { self.new.reads ≡ self.old.reads }
        ensures scans { self.new.scans ≡ self.old.scans + block_count self.old.bytes }
        ensures more_joins { self.old.joins ≤ self.new.joins }
        ensures joins { (d : ℕ) → block_count self.old.bytes ≤ 2 ^ d
            → self.new.joins ≤ self.old.joins + 2 ^ d }
    {
        self.layout.blank = blank;
        self.store.scan_all(self.layout, &mut self.tree);
    }

    /// Its bytes, to be compared with others.
    pub fn bytes(&self) -> &[u8]
        ensures { result.now ≡ self.now.bytes }
    {
        self.store.as_slice()
    }

    /// Writes its bytes, or a prefix of them where a call failed.
    pub fn emit<W: Sink>(&self, sink: &mut W) -> io::Result<()>
        ensures ok { OnOk result (Prints self.now.bytes (W.state sink.old) (W.state sink.new)) }
        ensures err { OnErr result (PrintsFront self.now.bytes
            (W.state sink.old) (W.state sink.new)) }
    {
        self.store.emit(sink)
    }
}

// So many zero bytes.
fn zeros(alloc: Global, len: usize) -> Result<Vec<u8>, AllocError>
    ensures { IfOk result (λ bytes. bytes.items ≡ replicate len 0) }
{
    let mut bytes = Vec::new(alloc);
    bytes.resize(len, 0)?;
    Ok(bytes)
}
