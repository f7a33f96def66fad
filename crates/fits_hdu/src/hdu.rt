ghost use Rattle.std.specs.Prelude.{◌≡◌, ◌≤◌, ◌+◌, length};

mod columns;
mod loading;
mod making;
mod pixels;
mod reporting;
mod reshaping;
mod stamping;

use crate::keyword::{KeywordFault, keyword_cards, keyword_value};
use crate::keyword_cards::KeywordCards;
use crate::planes::{follow_blank, plane_of};
use fits_card::{Card, CardList, Change, Name, has_header};
use fits_codes::HeaderMark;
use fits_header::Header;
use fits_image::{Kind, image_kind};
use fits_passing::{
    Described, ExtensionName, HduFault, ReadHduFault, SumKeywords, extension_name, read_described,
    sum_keywords,
};
use fits_plane::Plane;
use fits_rules::Shape;
use fits_stream::{Intake, Sink, Source};
use fits_unit::DataUnit;
use fits_value::{Text, Value};
use std::alloc::{AllocError, Global};
use std::io;
use std::marker::Model;

/// One HDU under edits: its header and its data unit, with what is kept beside them.
#[derive(Drop)]
pub struct Hdu {
    header: Header,
    // Its layout follows the cards.
    unit: DataUnit,
    // What the header says as a whole.
    mark: HeaderMark,
    // The kind of its pixels, where it is an image of integers.
    kind: Option<Kind>,
    // What DATASUM and CHECKSUM say.
    sums: SumKeywords,
    // Where its name stands in a table of names, as its holder said last.
    entry: Option<usize>,
    // Whether its holder keeps it stamped.
    kept: bool,
}

impl Model for Hdu {
    ghost use Rattle.std.specs.Prelude.{◌≡◌, length, Ok};
    ghost use Rattle.fits_rules.specs.Class.{is_primary};
    ghost use Rattle.fits_rules.specs.Shape.{shape_of};
    ghost use Rattle.fits_rules.specs.Size.{data_length};
    ghost use Rattle.fits_codes.specs.HeaderCodes.{header_mark_of};
    ghost use Rattle.fits_image.specs.Kind.{kind_in};
    ghost use Rattle.fits_passing.specs.Layout.{layout_of};
    ghost use Rattle.fits_hdu.specs.State.{HduState};
    ghost use Rattle.fits_passing.specs.Sums.{sum_keywords};

    ghost Value = { HduState };

    ghost view = { λ it. record {
      header = it.header;
      plane = it.unit.plane;
      entry = it.entry;
      kept = it.kept;
      absent = it.unit.absent;
    } };

    ghost invariant = { λ it. record {
      described : shape_of (is_primary it.header.shape.class) it.header.header.cards
          ≡ Ok it.header.shape;
      size : length it.unit.plane.bytes ≡ data_length it.header.shape;
      layout : it.unit.plane.layout ≡ layout_of it.header.shape it.header.header.cards;
      mark : it.mark ≡ header_mark_of it.header.header it.header.shape;
      kind : it.kind ≡ kind_in it.header.shape it.header.header.cards;
      sums : it.sums ≡ sum_keywords it.header.header.cards;
    } };
}

impl Hdu {
    ghost use Rattle.std.specs.Prelude.{◌≡◌, ◌+◌, ◌^◌, ◌≤◌, ◌<◌, true, false, length, take, drop, All, None, Ok, IsOk, IfOk, IfErr, IsErrOf, OnOk, OnErr, IsTrue};
    ghost use Rattle.fits_card.specs.Card.{IsEnd};
    ghost use Rattle.fits_card.specs.Change.{cards_after, new_cards, IsInRange};
    ghost use Rattle.fits_card.specs.Header.{HasNoHeader, header_bytes};
    ghost use Rattle.fits_stream.specs.Intake.{supply, Takes};
    ghost use Rattle.fits_stream.specs.Stream.{Prints, PrintsFront};
    ghost use Rattle.fits_header.specs.Work.{shape_reads};
    ghost use Rattle.fits_pixels.specs.Layout.{block_count};
    ghost use Rattle.fits_rules.specs.Class.{is_primary};
    ghost use Rattle.fits_rules.specs.Shape.{shape_of};
    ghost use Rattle.fits_rules.specs.Size.{data_length};
    ghost use Rattle.fits_hdu.specs.Keyword.{keyword_cards, keyword_value, KeywordFails};
    ghost use Rattle.fits_image.specs.Kind.{kind_in};
    ghost use Rattle.fits_passing.specs.Layout.{layout_of};
    ghost use Rattle.fits_passing.specs.HduReading.{HduStops};
    ghost use Rattle.fits_hdu.specs.State.{card_placed, name_of, parts_of, IsDescribed, ReadsUpTo};
    ghost use Rattle.fits_passing.specs.Work.{apply_reads, name_reads};
    ghost use Rattle.fits_hdu.specs.Work.{keyword_reads, layout_in, plane_work, FollowsBlank, IsOpened, IsScanned};
    ghost use Rattle.fits_passing.specs.Hdu.{IsHdu, IsHduOf, HduFails, hdu_bytes, hdu_after, keeps_shape};

    /// The HDU that these bytes begin with, the primary one or an extension, and how many bytes it
    /// has (FITS Standard 4.0, section 3.1).
    ///
    /// The faults are looked for in the order of `HduFault`. The cards that it reads are counted.
    pub fn open(alloc: Global, bytes: &[u8], primary: bool) -> Result<(Hdu, usize), HduFault>
        requires { length bytes.now ≤ 2 ^ 34 }
        ensures found { IfOk result (λ cut. IsHduOf primary bytes.now (parts_of cut.0)
            (drop cut.1 bytes.now)) }
        ensures described { IfOk result (λ cut. shape_of primary cut.0.header.header.cards
            ≡ Ok cut.0.header.shape) }
        ensures class { IfOk result (λ cut. is_primary cut.0.header.shape.class ≡ primary) }
        ensures len { IfOk result (λ cut. cut.1 ≡ length (hdu_bytes (parts_of cut.0))) }
        ensures within { IfOk result (λ cut. cut.1 ≤ length bytes.now) }
        ensures opened { IfOk result (λ cut. IsOpened 0 cut.0) }
        ensures held { IfOk result (λ cut. cut.0.absent ≡ None) }

        // Whether there is a header is found before any memory is asked for.
        ensures fault { IfErr result (HduFails primary bytes.now) }
        ensures no_end { HasNoHeader bytes.now → IsErrOf result HduFault.NoEnd }
    {
        if !has_header(bytes) {
            return Err(HduFault::NoEnd);
        }
        let mut intake = Intake::of(bytes);
        let mut none: &[u8] = &[];
        match Hdu::read(alloc, &mut intake, &mut none, primary) {
            Ok(hdu) => Ok((hdu, bytes.len() - intake.left())),
            Err(ReadHduFault::Hdu(fault)) => Err(fault),
            // Nothing is read, and no bytes fail.
            Err(ReadHduFault::Failed) => unreachable!(),
        }
    }

    // The HDU of these cards, which describe this shape, and of a data unit that is as long.
    fn of(
        alloc: Global,
        cards: CardList,
        shape: Shape,
        data_unit: Vec<u8>,
    ) -> Result<Hdu, AllocError>
        requires described { shape_of (is_primary shape.class) cards.header.cards ≡ Ok shape }
        requires size { length data_unit.items ≡ data_length shape }
        requires small { length data_unit.items ≤ 2 ^ 34 }
        ensures header { IfOk result (λ it. it.header.header ≡ cards.header) }
        ensures unit { IfOk result (λ it. it.plane.bytes ≡ data_unit.items) }
        ensures shape { IfOk result (λ it. it.header.shape ≡ shape) }
        ensures kept { IfOk result (λ it. it.kept ≡ false) }
        ensures held { IfOk result (λ it. it.absent ≡ None) }
        ensures work { IfOk result (λ it. it.header.reads
            ≤ cards.reads + length cards.header.cards + apply_reads) }
        ensures least { IfOk result (λ it. cards.reads ≤ it.header.reads) }
        ensures scans { IfOk result (λ it. IsScanned (block_count data_unit.items)
            (plane_work it.plane)) }
    {
        let mut header = Header::open(alloc, cards, shape)?;
        match plane_of(alloc, &mut header, data_unit) {
            Ok(plane) => Ok(Hdu::joined(header, DataUnit::held(plane))),
            Err(refused) => {
                drop(header);
                Err(refused)
            }
        }
    }

    // The HDU of a header and of the data unit that it describes.
    fn joined(mut header: Header, unit: DataUnit) -> Hdu
        requires described { shape_of (is_primary header.shape.class) header.header.cards
            ≡ Ok header.shape }
        requires size { length unit.plane.bytes ≡ data_length header.shape }
        requires layout { unit.plane.layout ≡ layout_of header.shape header.header.cards }
        ensures header { result.header.header ≡ header.header }
        ensures unit { result.plane ≡ unit.plane }
        ensures shape { result.header.shape ≡ header.shape }
        ensures work { result.header.reads + 1 ≤ header.reads + apply_reads }
        ensures least { header.reads ≤ result.header.reads }
        ensures entry { result.entry ≡ None }
        ensures kept { result.kept ≡ false }
        ensures absent { result.absent ≡ unit.absent }
    {
        let mark = header.mark();
        let kind = image_kind(&mut header);
        let sums = sum_keywords(&mut header);
        Hdu {
            header,
            unit,
            mark,
            kind,
            sums,
            entry: None,
            kept: false,
        }
    }

    /// The HDU that comes next in a source. Its data unit
    /// is read into its place.
    ///
    /// A data unit longer than what may still be taken isn't begun, and memory is asked for as its
    /// bytes come.
    #[tactic(auto, using(fits_passing::proofs::ReadingLemmas::read_steps))]
    pub fn read<R: Source>(
        alloc: Global,
        intake: &mut Intake,
        source: &mut R,
        primary: bool,
    ) -> Result<Hdu, ReadHduFault>
        requires { length intake.old.ahead + intake.old.left ≤ 2 ^ 34 }
        ensures taken { IfOk result (λ hdu. Takes
            (supply (R.state source.old) intake.old) (supply (R.state source.new) intake.new)
            (hdu_bytes (parts_of hdu))) }
        ensures whole { IfOk result (λ hdu. IsHdu primary (parts_of hdu)) }
        ensures described { IfOk result (λ hdu. shape_of primary hdu.header.header.cards
            ≡ Ok hdu.header.shape) }
        ensures opened { IfOk result (λ hdu. IsOpened 0 hdu) }
        ensures held { IfOk result (λ hdu. hdu.absent ≡ None) }
        ensures err { IfErr result (HduStops primary
            (supply (R.state source.old) intake.old) (supply (R.state source.new) intake.new)) }
    {
        let Described {
            cards,
            shape,
            unit_len,
        } = read_described(alloc, intake, source, primary)?;
        let data_unit = match intake.take(alloc, source, unit_len) {
            Ok(data_unit) => data_unit,
            Err(fault) => return Err(ReadHduFault::from(fault)),
        };
        if data_unit.len() < unit_len {
            return Err(ReadHduFault::Hdu(HduFault::ShortData));
        }
        match Hdu::of(alloc, cards, shape, data_unit) {
            Ok(hdu) => Ok(hdu),
            Err(_) => Err(ReadHduFault::Hdu(HduFault::Memory)),
        }
    }

    /// The shape that its cards describe.
    pub fn shape(&self) -> &Shape
        ensures value { result.now ≡ self.now.header.shape }
        ensures described { IsDescribed self.now }
    {
        self.header.shape()
    }

    /// How many cards its header has, END not counted.
    pub fn card_count(&self) -> usize
        ensures value { result ≡ length self.now.header.header.cards }
        ensures whole { IsHdu (is_primary self.now.header.shape.class) (parts_of self.now) }
        ensures described { IsDescribed self.now }
        ensures few { result < 2 ^ 63 }
    {
        self.header.len()
    }

    /// The card at a place, if there is one. The read is counted.
    ///
    /// It takes no memory.
    pub fn card(&mut self, place: usize) -> Option<Card>
        ensures value { result ≡ card_placed self.old.header.header.cards place }
        ensures work { ReadsUpTo self.old self.new 1 }
    {
        if place == 0 || place > self.header.len() {
            return None;
        }
        Some(self.header.card(place))
    }

    /// Its header.
    pub fn header(&self) -> &Header
        ensures { result.now ≡ self.now.header }
    {
        &self.header
    }

    /// Its data unit in memory, read as its cards say.
    pub fn plane(&self) -> &Plane
        requires { self.now.absent ≡ None }
        ensures value { result.now ≡ self.now.plane }
        ensures layout { result.now.layout ≡ layout_in self.now }
    {
        self.unit.plane()
    }

    /// How many bytes its data unit has, with the fill.
    pub fn data_len(&self) -> usize
        ensures { result ≡ length self.now.plane.bytes }
    {
        self.unit.byte_len()
    }

    /// What it is called, if it is an extension with a name. The cards that it reads are counted.
    ///
    /// It takes no memory.
    pub fn extension_name(&mut self) -> Option<ExtensionName>
        ensures value { result ≡ name_of self.old }
        ensures work { ReadsUpTo self.old self.new name_reads }
        ensures described { IsDescribed self.old }
    {
        extension_name(&mut self.header)
    }

    /// Where its name stands in a table of names, as `set_entry` said last.
    pub fn entry(&self) -> Option<usize>
        ensures { result ≡ self.now.entry }
    {
        self.entry
    }

    /// Says where its name stands in a table of names. Nothing else changes.
    pub fn set_entry(&mut self, entry: Option<usize>)
        ensures { self.new ≡ record self.old { entry = entry } }
    {
        self.entry = entry;
    }

    /// Whether its holder keeps it stamped, as `set_kept` said last.
    pub fn kept(&self) -> bool
        ensures { result ≡ self.now.kept }
    {
        self.kept
    }

    /// Says whether its holder keeps it stamped. Nothing else changes.
    pub fn set_kept(&mut self, kept: bool)
        ensures { self.new ≡ record self.old { kept = kept } }
    {
        self.kept = kept;
    }

    /// Makes room for this many more cards. It fails only where room was missing.
    pub fn reserve(&mut self, additional: usize) -> Result<(), AllocError>
        ensures ok { OnOk result (additional ≤ self.new.header.room) }
        ensures err { OnErr result (self.new.header.room ≡ self.old.header.room) }
        ensures succeeds { additional ≤ self.old.header.room → IsOk result }
        ensures hdu { parts_of self.new ≡ parts_of self.old }
        ensures shape { self.new.header.shape ≡ self.old.header.shape }
        ensures room { self.old.header.room ≤ self.new.header.room }
        ensures work { self.new.header.reads ≡ self.old.header.reads }
        ensures rest { self.new ≡ record self.old { header = self.new.header } }
    {
        self.header.reserve(additional)
    }

    /// The kind of its pixels, where it is an image of integers (FITS Standard 4.0, sections
    /// 4.4.2.5 and 5.2.5). It takes no memory, and reads no card.
    pub fn kind(&self) -> Option<Kind>
        ensures value { result ≡ kind_in self.now.header.shape self.now.header.header.cards }
        ensures described { IsDescribed self.now }
    {
        self.kind
    }

    /// The value and the comment of a keyword: those of the first card of this name that has a
    /// value, with its CONTINUE cards (FITS Standard 4.0, section 4.2.1.2). The cards that it reads
    /// are counted.
    pub fn value(
        &mut self,
        alloc: Global,
        name: &Name,
    ) -> Result<(Value, Option<Text>), KeywordFault>
        ensures ok { IfOk result (λ said. keyword_value self.old.header.header.cards name.now
            ≡ Ok said) }
        ensures err { IfErr result (KeywordFails self.old.header.header.cards name.now) }
        ensures work { ReadsUpTo self.old self.new
            (keyword_reads self.old.header.header.cards name.now) }
    {
        keyword_value(alloc, &mut self.header, name)
    }

    /// Where the cards of a keyword stand: the first card of this name that has a value, and the
    /// CONTINUE cards that belong to its string (FITS Standard 4.0, section 4.2.1.2). The cards
    /// that it reads are counted.
    ///
    /// It takes no memory.
    pub fn keyword_cards(&mut self, name: &Name) -> Option<KeywordCards>
        ensures value { result ≡ keyword_cards self.old.header.header.cards name.now }
        ensures work { ReadsUpTo self.old self.new
            (keyword_reads self.old.header.header.cards name.now) }
    {
        keyword_cards(&mut self.header, name)
    }

    /// Whether its cards after a change would describe the same shape. The cards that it reads are
    /// counted.
    ///
    /// It takes no memory.
    #[tactic(auto, using(crate::proofs::ChangeLemmas::kept_steps))]
    pub fn keeps_shape(&mut self, change: &Change) -> bool
        requires { IsInRange self.old.header.header.cards change.now }
        ensures value { result ≡ keeps_shape
            (is_primary self.old.header.shape.class) self.old.header.header.cards
            (cards_after self.old.header.header.cards change.now) }
        ensures work { ReadsUpTo self.old self.new (shape_reads self.old.header.shape) }
    {
        self.header.keeps_shape(change)
    }

    /// Makes a change of its cards. END stays, and the header's fill is spaces.
    ///
    /// It takes no memory: the room is reserved before, and `keeps_shape` says whether the shape
    /// stays. The cards that it reads are counted: those that decide the codes of the header, and
    /// those that say how pixels are read and what the sums are.
    #[tactic(auto, using(crate::proofs::ChangeLemmas::kept_steps))]
    pub fn apply(&mut self, change: &Change)
        requires in_range { IsInRange self.old.header.header.cards change.now }
        requires not_end { All (λ card. IsEnd card → ⊥) (new_cards change.now) }
        requires room { length (cards_after self.old.header.header.cards change.now)
            ≤ length self.old.header.header.cards + self.old.header.room }
        requires kept { IsTrue (keeps_shape
            (is_primary self.old.header.shape.class) self.old.header.header.cards
            (cards_after self.old.header.header.cards change.now)) }
        ensures hdu { parts_of self.new ≡ hdu_after change.now (parts_of self.old) }
        ensures shape { self.new.header.shape ≡ self.old.header.shape }
        ensures room { self.new.header.room + length self.new.header.header.cards
            ≡ self.old.header.room + length self.old.header.header.cards }
        ensures work { self.new.header.reads ≤ self.old.header.reads + apply_reads }
        ensures least { self.old.header.reads ≤ self.new.header.reads }
        ensures entry { self.new.entry ≡ self.old.entry }
        ensures kept { self.new.kept ≡ self.old.kept }
        ensures absent { self.new.absent ≡ self.old.absent }
        ensures described { IsDescribed self.new }

        // The data unit is scanned again where the number that BLANK says changes.
        ensures scans { FollowsBlank
            (layout_in self.old).blank (layout_in self.new).blank (block_count self.old.plane.bytes)
            (plane_work self.old.plane) (plane_work self.new.plane) }
    {
        self.header.apply(change);
        self.mark = self.header.mark();
        self.kind = image_kind(&mut self.header);
        self.sums = sum_keywords(&mut self.header);
        follow_blank(&mut self.unit, &mut self.header);
    }

    /// Writes the header alone. Each card's read is counted.
    ///
    /// Where a call fails a prefix was written.
    pub fn emit_header<W: Sink>(&mut self, sink: &mut W) -> io::Result<()>
        ensures ok { OnOk result (Prints (header_bytes self.old.header.header)
            (W.state sink.old) (W.state sink.new)) }
        ensures err { OnErr result (PrintsFront (header_bytes self.old.header.header)
            (W.state sink.old) (W.state sink.new)) }

        // The HDU stays, and each card is read once at most.
        ensures work { ReadsUpTo self.old self.new (length self.old.header.header.cards) }
        ensures all_read { OnOk result (self.new.header.reads
            ≡ self.old.header.reads + length self.old.header.header.cards) }
    {
        self.header.emit(sink)
    }

    /// Writes the header and then the data unit. Each card's read is counted.
    ///
    /// Where a call fails a prefix was written.
    #[tactic(auto, using(fits_stream::proofs::StreamLemmas::printing_steps))]
    pub fn emit<W: Sink>(&mut self, sink: &mut W) -> io::Result<()>
        requires { self.old.absent ≡ None }
        ensures ok { OnOk result (Prints (hdu_bytes (parts_of self.old))
            (W.state sink.old) (W.state sink.new)) }
        ensures err { OnErr result (PrintsFront (hdu_bytes (parts_of self.old))
            (W.state sink.old) (W.state sink.new)) }

        // The HDU stays, and each card is read once at most.
        ensures work { ReadsUpTo self.old self.new (length self.old.header.header.cards) }
        ensures all_read { OnOk result (self.new.header.reads
            ≡ self.old.header.reads + length self.old.header.header.cards) }
    {
        self.header.emit(sink)?;
        self.unit.plane().emit(sink)
    }
}

mod fields;
