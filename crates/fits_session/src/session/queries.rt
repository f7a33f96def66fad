//! What a session answers. Queries leave the file as it is.
ghost use Rattle.std.specs.Prelude.{◌≡◌, ◌≤◌, ◌+◌, length, All, IfOk};
ghost use Rattle.fits_passing.specs.File.{joined_hdus, offsets_from};
ghost use Rattle.fits_passing.specs.declared.limits.TheConstants.{FILE_LIMIT};
ghost use Rattle.fits_passing.specs.Report.{counts_in, names_from, wrong_from};
ghost use Rattle.fits_session.specs.Session.{hdus_of, AreNamed, IsSeen};

use super::Session;
use super::finding::index_of;
use super::vouching::is_kept;
use crate::holder::Holder;
use crate::name_table::NameTable;
use fits_card::{Card, Name};
use fits_codes::Code;
use fits_hdu::{Hdu, Stats, Verdicts};
use fits_header::Counts;
use fits_image::Kind;
use fits_making::Refusal;
use fits_passing::{HduOffsets, Problem, push_problems, push_trailing};
use fits_rules::Shape;
use fits_value::{Text, Value};
use std::alloc::{AllocError, Global};

impl<H: Holder + Drop> Session<H> {
    ghost use Rattle.std.specs.Prelude.{◌≡◌, ◌<◌, ◌^◌, true, length, All, IfOk, IfErr, OnOk, OnErr, None, Ok};
    ghost use Rattle.fits_plane.specs.Rectangle.{rectangle_size};
    ghost use Rattle.fits_session.specs.Away.{LieStill};
    ghost use Rattle.fits_session.specs.Edit.{hdu_of};
    ghost use Rattle.fits_passing.specs.File.{offsets_from};
    ghost use Rattle.fits_making.specs.Keeping.{both_right};
    ghost use Rattle.fits_session.specs.Marked.{kept_in};
    ghost use Rattle.fits_session.specs.Query.{card_count_in, card_in, datasum_in, kind_in, names_in, positions_in, rect_in, shape_in, stats_in, value_in, verdicts_in, PlacesFail, QueryFails};
    ghost use Rattle.fits_passing.specs.Report.{counts_in, report_of};
    ghost use Rattle.fits_session.specs.Session.{file_of, marked_of, Asks, AsksPixels, HasPixels, HasStats, IsSeen, IsSoOf};
    ghost use Rattle.fits_session.specs.Work.{value_reads};

    /// How many HDUs there are.
    #[tactic(auto, using(crate::proofs::StateLemmas::count_steps))]
    pub fn hdus(&self) -> usize
        ensures { result ≡ length (file_of self.now).hdus }
    {
        self.hdus.len()
    }

    /// How many cards HDU h has, END not counted. Refusal 1.
    pub fn card_count(&self, h: usize) -> Result<usize, Refusal>
        ensures value { result ≡ card_count_in (file_of self.now) h }
        ensures few { IfOk result (λ count. count < 2 ^ 63) }
    {
        let i = index_of(&self.hdus, h)?;
        let hdu = &self.hdus[i];
        Ok(hdu.card_count())
    }

    /// The card at a place of HDU h. Refusals 1 and 2. It takes no memory.
    pub fn card(&mut self, h: usize, place: usize) -> Result<Card, Refusal>
        ensures value { result ≡ card_in (file_of self.old) h place }
        ensures asks { Asks h 1 self.old self.new }
        ensures stays { LieStill self.old.hdus self.new.hdus }
    {
        let i = index_of(&self.hdus, h)?;
        let hdu = &mut self.hdus[i];
        hdu.card(place).ok_or(Refusal::NoCard)
    }

    /// What the mandatory keywords of HDU h say of its data. Refusal 1.
    pub fn shape(&self, h: usize) -> Result<&Shape, Refusal>
        ensures ok { IfOk result (λ shape. shape_in (file_of self.now) h ≡ Ok shape.now) }
        ensures err { IfErr result (λ why. shape_in (file_of self.now) h ≡ Err why) }
    {
        let i = index_of(&self.hdus, h)?;
        let hdu = &self.hdus[i];
        Ok(hdu.shape())
    }

    /// The type of the pixels of HDU h. Refusals 1 and 9. It takes no memory, and reads nothing.
    pub fn kind(&self, h: usize) -> Result<Kind, Refusal>
        ensures { result ≡ kind_in (file_of self.now) h }
    {
        let i = index_of(&self.hdus, h)?;
        let hdu = &self.hdus[i];
        hdu.kind().ok_or(Refusal::NotImage)
    }

    /// The sum of the data unit of HDU h, as `datasum`. It is known: `know` sees to it.
    pub fn known_datasum(&self, h: usize) -> Result<u32, Refusal>
        requires { IsSoOf IsSeen h self.now.hdus }
        ensures { result ≡ datasum_in (file_of self.now) h }
    {
        let i = index_of(&self.hdus, h)?;
        let hdu = &self.hdus[i];
        Ok(hdu.datasum())
    }

    /// Whether the sums of HDU h are right, as `verdicts`. Its data unit is known: `know` sees to it.
    pub fn known_verdicts(&self, h: usize) -> Result<Verdicts, Refusal>
        requires { IsSoOf IsSeen h self.now.hdus }
        ensures { result ≡ verdicts_in (file_of self.now) h }
    {
        let i = index_of(&self.hdus, h)?;
        let hdu = &self.hdus[i];
        Ok(hdu.verdicts())
    }

    /// Whether HDU h is kept stamped, with both its sums right. Refusal 1. It takes no memory, and
    /// reads nothing.
    pub fn kept(&self, h: usize) -> Result<bool, Refusal>
        ensures value { result ≡ kept_in (marked_of self.now) h }
        ensures right { IfOk result (λ kept. kept ≡ true
            → verdicts_in (file_of self.now) h ≡ Ok both_right) }
    {
        let i = index_of(&self.hdus, h)?;
        let hdu = &self.hdus[i];
        if !hdu.kept() {
            return Ok(false);
        }
        let verdicts = hdu.verdicts();
        Ok(is_kept(hdu.kept(), verdicts))
    }

    /// The value of a keyword in HDU h, with the cards that continue it, and its comment. Refusals
    /// 1, 3, 8 and 15.
    pub fn value(&mut self, h: usize, name: &Name) -> Result<(Value, Option<Text>), Refusal>
        ensures ok { IfOk result (λ said. value_in (file_of self.old) h name.now ≡ Ok said) }
        ensures err { IfErr result (QueryFails (value_in (file_of self.old) h name.now)) }
        ensures asks { Asks h (value_reads (file_of self.old) h name.now) self.old self.new }
        ensures stays { LieStill self.old.hdus self.new.hdus }
    {
        let i = index_of(&self.hdus, h)?;
        let hdu = &mut self.hdus[i];
        let said = hdu.value(self.alloc, name)?;
        Ok(said)
    }

    /// The places of the cards of a name in HDU h, ascending; of a name that no card has, none,
    /// and then no memory is taken. Refusals 1 and 15. No card is read.
    pub fn positions(&self, h: usize, name: &Name) -> Result<Vec<usize>, Refusal>
        ensures ok { IfOk result (λ places. positions_in (file_of self.now) h name.now
            ≡ Ok places.items) }
        ensures err { IfErr result (PlacesFail (positions_in (file_of self.now) h name.now)) }
    {
        let i = index_of(&self.hdus, h)?;
        let hdu = &self.hdus[i];
        let places = hdu.header().positions(self.alloc, name)?;
        Ok(places)
    }

    /// The names of the cards of HDU h, each once, ascending by bytes. Refusals 1 and 15. No card
    /// is read.
    pub fn names(&self, h: usize) -> Result<Vec<Name>, Refusal>
        ensures ok { IfOk result (λ names. names_in (file_of self.now) h ≡ Ok names.items) }
        ensures err { IfErr result (QueryFails (names_in (file_of self.now) h)) }
    {
        let i = index_of(&self.hdus, h)?;
        let hdu = &self.hdus[i];
        let names = hdu.header().names(self.alloc)?;
        Ok(names)
    }

    /// What is wrong, as `report`. All data units are known: `know_all` sees to it.
    pub fn known_report(&mut self) -> Result<Vec<Problem>, AllocError>
        requires { All IsSeen self.old.hdus }
        ensures value { IfOk result (λ report. report.items ≡ report_of (file_of self.old)) }
        ensures same { self.new ≡ self.old }
    {
        let mut report = problems(self.alloc, &mut self.hdus, &self.names)?;
        push_trailing(&mut report, self.hdus.len() + 1, !self.tail.is_empty())?;
        Ok(report)
    }

    /// How many errors and warnings the report has, as `counts`. All data units are known: `know_all`
    /// sees to it.
    pub fn known_counts(&mut self) -> Counts
        requires { All IsSeen self.old.hdus }
        ensures value { result ≡ counts_in (report_of (file_of self.old)) }
        ensures same { self.new ≡ self.old }
    {
        let counts = counts_of(&mut self.hdus, &self.names);
        if self.tail.is_empty() {
            return counts;
        }
        counts.plus(Counts::of(&[Code::TrailingBytes]))
    }

    /// Where each HDU stands.
    pub fn offsets(&self) -> Result<Vec<HduOffsets>, AllocError>
        ensures { IfOk result (λ offsets. offsets.items ≡ offsets_from 0 (file_of self.now).hdus) }
    {
        offsets_of(self.alloc, &self.hdus)
    }

    /// The statistics of the pixels of HDU h, as `stats`. They are known: `load_counts` sees to it.
    pub fn known_stats(&self, h: usize) -> Result<Stats, Refusal>
        requires { IsSoOf HasStats h self.now.hdus }
        ensures { result ≡ stats_in (file_of self.now) h }
    {
        let i = index_of(&self.hdus, h)?;
        let hdu = &self.hdus[i];
        hdu.stats().ok_or(Refusal::NotImage)
    }

    /// The values of a rectangle of HDU h, as `rect`. Its pixels are in memory: `load_pixels` sees to
    /// it.
    pub fn held_rect(&mut self, h: usize, lo: &[u64], hi: &[u64]) -> Result<Vec<i128>, Refusal>
        requires { IsSoOf (HasPixels lo.now hi.now) h self.old.hdus }
        ensures ok { IfOk result (λ values. rect_in (file_of self.old) h lo.now hi.now
            ≡ Ok values.items) }
        ensures err { IfErr result (QueryFails (rect_in (file_of self.old) h lo.now hi.now)) }
        ensures asks { OnOk result (AsksPixels h (rectangle_size lo.now hi.now)
            self.old self.new) }
        ensures same { OnErr result (self.new ≡ self.old) }
        ensures stays { LieStill self.old.hdus self.new.hdus }
    {
        let i = index_of(&self.hdus, h)?;
        let hdu = &mut self.hdus[i];
        let values = hdu.rect(self.alloc, lo, hi)?;
        Ok(values)
    }
}

impl Session {
    ghost use Rattle.std.specs.Prelude.{◌≡◌, IfOk, IfErr, OnOk, OnErr, Ok};
    ghost use Rattle.fits_plane.specs.Rectangle.{rectangle_size};
    ghost use Rattle.fits_passing.specs.Report.{counts_in, report_of};
    ghost use Rattle.fits_session.specs.Query.{datasum_in, rect_in, stats_in, verdicts_in, QueryFails};
    ghost use Rattle.fits_session.specs.Session.{file_of, AsksPixels};

    /// The sum of the data unit of HDU h, with its fill (FITS Standard 4.0, Appendix J). Refusal 1.
    /// It takes no memory, and reads nothing.
    pub fn datasum(&self, h: usize) -> Result<u32, Refusal>
        ensures { result ≡ datasum_in (file_of self.now) h }
    {
        self.are_held();
        self.known_datasum(h)
    }

    /// Whether the sums of HDU h are right (FITS Standard 4.0, section 4.4.2.7). Refusal 1. It takes
    /// no memory, and reads nothing.
    pub fn verdicts(&self, h: usize) -> Result<Verdicts, Refusal>
        ensures { result ≡ verdicts_in (file_of self.now) h }
    {
        self.are_held();
        self.known_verdicts(h)
    }

    /// What is wrong: by HDU, by place, by the number of the code. No card is read.
    pub fn report(&mut self) -> Result<Vec<Problem>, AllocError>
        ensures value { IfOk result (λ report. report.items ≡ report_of (file_of self.old)) }
        ensures same { self.new ≡ self.old }
    {
        self.are_held();
        self.known_report()
    }

    /// How many errors and warnings the report has. It takes no memory, and reads no card.
    pub fn counts(&mut self) -> Counts
        ensures value { result ≡ counts_in (report_of (file_of self.old)) }
        ensures same { self.new ≡ self.old }
    {
        self.are_held();
        self.known_counts()
    }

    /// The statistics of the pixels of HDU h. Refusals 1 and 9. It takes no memory, and reads
    /// nothing.
    pub fn stats(&self, h: usize) -> Result<Stats, Refusal>
        ensures { result ≡ stats_in (file_of self.now) h }
    {
        self.are_held();
        self.known_stats(h)
    }

    /// The values of a rectangle of HDU h, in file order. The corners count from 1. Refusals 1, 9,
    /// 10 and 15. Each of its pixels is read once.
    pub fn rect(&mut self, h: usize, lo: &[u64], hi: &[u64]) -> Result<Vec<i128>, Refusal>
        ensures ok { IfOk result (λ values. rect_in (file_of self.old) h lo.now hi.now
            ≡ Ok values.items) }
        ensures err { IfErr result (QueryFails (rect_in (file_of self.old) h lo.now hi.now)) }
        ensures asks { OnOk result (AsksPixels h (rectangle_size lo.now hi.now)
            self.old self.new) }
        ensures same { OnErr result (self.new ≡ self.old) }
    {
        self.are_held();
        self.held_rect(h, lo, hi)
    }
}

// What is wrong in HDUs, one after another, with a table of what they are called.
fn problems(
    alloc: Global,
    hdus: &mut Vec<Hdu>,
    names: &NameTable,
) -> Result<Vec<Problem>, AllocError>
    requires seen { All IsSeen hdus.old.items }
    requires named { AreNamed hdus.old.items names.now.numbers.items }
    ensures value { IfOk result (λ report. report.items
        ≡ wrong_from (names_from 1 (hdus_of hdus.old.items)) 1 (hdus_of hdus.old.items)) }
    ensures same { hdus.new.items ≡ hdus.old.items }
{
    let mut report = Vec::new(alloc);
    for i in 0..hdus.len() {
        let hdu = &mut hdus[i];
        let repeated = names.is_repeated(hdu.entry());
        let whole = hdu.whole();
        let of_cards = hdu.findings(alloc)?;
        push_problems(&mut report, i + 1, whole, &of_cards, repeated)?;
    }
    Ok(report)
}

// How many errors and warnings that is.
fn counts_of(hdus: &mut Vec<Hdu>, names: &NameTable) -> Counts
    requires seen { All IsSeen hdus.old.items }
    requires named { AreNamed hdus.old.items names.now.numbers.items }
    ensures value { result ≡ counts_in
        (wrong_from (names_from 1 (hdus_of hdus.old.items)) 1 (hdus_of hdus.old.items)) }
    ensures few { result.errors + result.warnings ≤ FILE_LIMIT }
    ensures same { hdus.new.items ≡ hdus.old.items }
{
    let mut counts = Counts::of(&[]);
    for i in 0..hdus.len() {
        let hdu = &mut hdus[i];
        let here = hdu.counts(names.is_repeated(hdu.entry()));
        counts = counts.plus(here);
    }
    counts
}

// Where HDUs stand, of which the first begins at 0.
#[tactic(auto, using(crate::proofs::OffsetLemmas::offset_steps))]
fn offsets_of(alloc: Global, hdus: &[Hdu]) -> Result<Vec<HduOffsets>, AllocError>
    requires { length (joined_hdus (hdus_of hdus.now)) ≤ FILE_LIMIT }
    ensures { IfOk result (λ offsets. offsets.items ≡ offsets_from 0 (hdus_of hdus.now)) }
{
    let mut offsets = Vec::with_capacity(alloc, hdus.len())?;
    let mut start = 0;
    for hdu in hdus {
        let header_len = hdu.header().byte_len();
        let data_len = hdu.data_len();
        let data_start = start + header_len as u64;
        let hdu_end = data_start + data_len as u64;
        offsets.push(HduOffsets {
            header_start: start,
            data_start,
            hdu_end,
        })?;
        start = hdu_end;
    }
    Ok(offsets)
}
