//! What an HDU is and where it lies, its sums, and the problems of a file, in numbers.
ghost use Rattle.std.specs.Prelude.{◌≡◌, IfOk};
ghost use Rattle.std.specs.List.{flat_map};
ghost use Rattle.fits_c.specs.Queries.{class_number, kind_number, memory_number, offset_numbers, problem_numbers, verdict_number, IsSummaryOf};

use crate::live::{Live, NO_MEMORY};
use crate::numbers::Numbers;
use crate::shaped::Shaped;
use crate::summary::Summary;
use crate::sums::Sums;
use crate::undone::refusal_number;
use crate::wide::{parts_of, parts_or_zero};
use fits_image::Kind;
use fits_passing::{Stats, Verdict};
use fits_rules::Class;
use fits_session::{HduOffsets, Problem, Refusal};
use std::alloc::{AllocError, Global};

impl Live {
    ghost use Rattle.std.specs.Prelude.{◌≡◌, IfOk, IfErr, OnOk};
    ghost use Rattle.std.specs.List.{flat_map};
    ghost use Rattle.fits_passing.specs.File.{offsets_from};
    ghost use Rattle.fits_passing.specs.Report.{report_of};
    ghost use Rattle.fits_session.specs.Query.{shape_in, QueryFails};
    ghost use Rattle.fits_session.specs.Session.{file_of};
    ghost use Rattle.fits_c.specs.Queries.{offset_numbers, problem_numbers, sums_of, IsShapeOf, OffsetsComeTo, ProblemsComeTo, ShapeComesTo, StatsComeTo, SumsComeTo};
    ghost use Rattle.fits_c.specs.Session.{Stays};

    /// Says what HDU h is, and gives its axes.
    pub fn shape(&mut self, alloc: Global, h: usize, shaped: &mut Shaped) -> u8
        ensures { ShapeComesTo self.old h result shaped.new self.new }
    {
        match self.describe(alloc, h) {
            Ok(described) => {
                *shaped = described;
                0
            }
            Err(why) => refusal_number(why),
        }
    }

    // The same as a result.
    fn describe(&mut self, alloc: Global, h: usize) -> Result<Shaped, Refusal>
        ensures ok { IfOk result (λ shaped. IsShapeOf (file_of self.old.session) h shaped self.new) }
        ensures err { IfErr result (QueryFails (shape_in (file_of self.old.session) h)) }
        ensures stays { Stays self.old self.new }
    {
        let pixels = kind_number(self.session.kind(h));
        let shape = self.session.shape(h)?;
        let class = class_number(shape.class);
        let bitpix = shape.bitpix;
        self.numbers = shape.axes.as_slice().to_vec(alloc)?;
        Ok(Shaped {
            axes: Numbers::of(&self.numbers),
            bitpix,
            class,
            pixels,
        })
    }

    /// Gives the sums of HDU h, and says whether they are right.
    pub fn sums(&self, h: usize, sums: &mut Sums) -> u8
        ensures { SumsComeTo self.now h result sums.new }
    {
        match self.sums_of(h) {
            Ok(are) => {
                *sums = are;
                0
            }
            Err(why) => refusal_number(why),
        }
    }

    // The same as a result.
    fn sums_of(&self, h: usize) -> Result<Sums, Refusal>
        ensures { result ≡ sums_of (file_of self.now.session) h }
    {
        let datasum = self.session.datasum(h)?;
        let verdicts = self.session.verdicts(h)?;
        Ok(Sums {
            datasum,
            datasum_verdict: verdict_number(verdicts.datasum),
            checksum_verdict: verdict_number(verdicts.checksum),
        })
    }

    /// Gives the statistics of the pixels of HDU h.
    pub fn stats(&self, h: usize, summary: &mut Summary) -> u8
        ensures { StatsComeTo self.now h result summary.new }
    {
        match self.session.stats(h) {
            Ok(stats) => {
                *summary = summary_of(&stats);
                0
            }
            Err(why) => refusal_number(why),
        }
    }

    /// Gives where each HDU begins, its data begin, and it ends.
    pub fn offsets(&mut self, alloc: Global, offsets: &mut Numbers) -> u8
        ensures { OffsetsComeTo self.old result offsets.new self.new }
    {
        let number = number_of(self.find_offsets(alloc));
        *offsets = Numbers::of(&self.numbers);
        number
    }

    // Has them.
    fn find_offsets(&mut self, alloc: Global) -> Result<(), AllocError>
        ensures ok { OnOk result (self.new.numbers.items
            ≡ flat_map offset_numbers (offsets_from 0 (file_of self.old.session).hdus)) }
        ensures stays { Stays self.old self.new }
    {
        let offsets = self.session.offsets()?;
        self.numbers = offset_numbers(alloc, &offsets)?;
        Ok(())
    }

    /// Gives what is wrong with the file.
    pub fn problems(&mut self, alloc: Global, problems: &mut Numbers) -> u8
        ensures { ProblemsComeTo self.old result problems.new self.new }
    {
        let number = number_of(self.find_problems(alloc));
        *problems = Numbers::of(&self.numbers);
        number
    }

    // Has it.
    fn find_problems(&mut self, alloc: Global) -> Result<(), AllocError>
        ensures ok { OnOk result (self.new.numbers.items
            ≡ flat_map problem_numbers (report_of (file_of self.old.session))) }
        ensures stays { Stays self.old self.new }
    {
        let report = self.session.report()?;
        self.numbers = problem_numbers(alloc, &report)?;
        Ok(())
    }
}

// 0, or the number of refused memory.
fn number_of(done: Result<(), AllocError>) -> u8
    ensures { result ≡ memory_number done }
{
    match done {
        Ok(()) => 0,
        Err(_) => NO_MEMORY,
    }
}

// Statistics in numbers of C's.
fn summary_of(stats: &Stats) -> Summary
    ensures { IsSummaryOf stats.now result }
{
    Summary {
        defined: stats.defined,
        blank: stats.blank,
        least: parts_or_zero(stats.least),
        greatest: parts_or_zero(stats.greatest),
        sum: parts_of(stats.sum),
    }
}

// Three numbers for each HDU.
fn offset_numbers(alloc: Global, offsets: &[HduOffsets]) -> Result<Vec<u64>, AllocError>
    ensures { IfOk result (λ numbers. numbers.items ≡ flat_map offset_numbers offsets.now) }
{
    let mut numbers = Vec::new(alloc);
    for at in offsets {
        numbers.extend_from_slice(&[at.header_start, at.data_start, at.hdu_end])?;
    }
    Ok(numbers)
}

// Three numbers for each problem.
fn problem_numbers(alloc: Global, report: &[Problem]) -> Result<Vec<u64>, AllocError>
    ensures { IfOk result (λ numbers. numbers.items ≡ flat_map problem_numbers report.now) }
{
    let mut numbers = Vec::new(alloc);
    for problem in report {
        let code = u64::from(problem.code.number());
        numbers.extend_from_slice(&[code, problem.hdu as u64, problem.place as u64])?;
    }
    Ok(numbers)
}

// The number of a class.
fn class_number(class: Class) -> u8
    ensures { result ≡ class_number class }
{
    match class {
        Class::Primary => 1,
        Class::Groups => 2,
        Class::Image => 3,
        Class::Table => 4,
        Class::Other => 5,
    }
}

// The number of the type of pixels, or 0 where it is no image of integers.
fn kind_number(kind: Result<Kind, Refusal>) -> u8
    ensures { result ≡ kind_number kind }
{
    match kind {
        Ok(Kind::U8) => 1,
        Ok(Kind::I8) => 2,
        Ok(Kind::I16) => 3,
        Ok(Kind::U16) => 4,
        Ok(Kind::I32) => 5,
        Ok(Kind::U32) => 6,
        Ok(Kind::I64) => 7,
        Ok(Kind::U64) => 8,
        Err(_) => 0,
    }
}

// 1 right, 0 missing, -1 wrong.
fn verdict_number(verdict: Verdict) -> i8
    ensures { result ≡ verdict_number verdict }
{
    match verdict {
        Verdict::Right => 1,
        Verdict::Missing => 0,
        Verdict::Wrong => -1,
    }
}
