ghost use Rattle.std.specs.Prelude.{◌≡◌, ◌++◌, ◌<◌, ◌≤◌, length, take, IfOk, OnOk, IfErr};
ghost use Rattle.fits_json.specs.JsonLines.{json_line, LineFails, TakesLine};
ghost use Rattle.fits_json.specs.Objects.{ReadsAsLine};
ghost use Rattle.fits_stream.specs.Stream.{Prints};

use crate::column::Column;
use crate::columns::len_before;
use crate::objects::json_of_line;
use fits_stream::{Count, GoneBytes, Sink, write_all};
use std::alloc::{AllocError, Global};
use std::io;
use std::io::ErrorKind;
use std::marker::Model;

/// A sink that passes on the JSON of each line that is written to it, one object a line.
///
/// A line is held until it ends, and goes to the sink below then; a flush passes on nothing of one
/// that hasn't ended. After a call that failed the lines below may lack one.
#[derive(Drop)]
pub struct JsonLines<'a, O: Sink> {
    sink: O,
    alloc: Global,
    name: &'a str,
    forms: &'a [&'a [Column]],
    // The line that hasn't ended.
    held: Vec<u8>,
    told: GoneBytes,
    passed: GoneBytes,
    failed: Count,
    unflushed: Count,
    lacks: bool,
}

impl<'a, O: Sink> Model for JsonLines<'a, O> {
    ghost use Rattle.fits_json.specs.JsonLines.{JsonState, IsJson};

    ghost Value = { JsonState O };

    ghost view = { λ it. record {
      sink = it.sink;
      name = it.name.now;
      forms = it.forms.now;
      held = it.held.items;
      told = it.told.bytes;
      passed = it.passed.bytes;
      failed = it.failed.total;
      unflushed = it.unflushed.total;
      lacks = it.lacks;
    } };

    ghost invariant = { λ it. IsJson it.name.now it.forms.now it.held.items it.told.bytes
        it.passed.bytes it.failed.total it.unflushed.total (O.state it.sink) };
}

// Why a line wasn't passed on.
#[derive(Drop)]
enum LineFault {
    Memory,
    Failed(io::Error),
}

impl From<AllocError> for LineFault {
    ghost use Rattle.fits_json.specs.declared.json_lines.LineFault.TheVariants.{Memory};

    ghost from_gives = { λ _ fault. fault ≡ Memory };

    fn from(_: AllocError) -> Self {
        LineFault::Memory
    }
}

impl<'a, O: Sink> JsonLines<'a, O> {
    ghost use Rattle.std.specs.Prelude.{◌≡◌, [], false};
    ghost use Rattle.fits_json.specs.JsonLines.{AreJsonLines};

    /// Passes the JSON of each line on to a sink, as lines of the file of this name that have one
    /// of these forms. None is written yet.
    pub fn new(alloc: Global, sink: O, name: &'a str, forms: &'a [&'a [Column]]) -> JsonLines<'a, O>
        ensures sink { result.sink ≡ sink }
        ensures name { result.name ≡ name.now }
        ensures forms { result.forms ≡ forms.now }
        ensures held { result.held ≡ [] }
        ensures told { result.told ≡ [] }
        ensures passed { result.passed ≡ [] }
        ensures failed { result.failed ≡ 0 }
        ensures unflushed { result.unflushed ≡ 0 }
        ensures lacks { result.lacks ≡ false }
    {
        JsonLines {
            sink,
            alloc,
            name,
            forms,
            held: Vec::new(alloc),
            told: GoneBytes::none(),
            passed: GoneBytes::none(),
            failed: Count::new(),
            unflushed: Count::new(),
            lacks: false,
        }
    }

    /// Whether a call failed because memory was refused.
    pub fn lacks_memory(&self) -> bool
        ensures { result ≡ self.now.lacks }
    {
        self.lacks
    }

    /// The sink below again. As long as no call failed, what was passed on to it is the JSON of
    /// the lines that were written.
    pub fn into_inner(self) -> O
        ensures sink { result ≡ self.entry.sink }
        ensures json { self.entry.failed ≡ 0 → AreJsonLines self.entry.name self.entry.forms
            self.entry.told self.entry.held self.entry.passed }
    {
        let JsonLines { sink, .. } = self;
        sink
    }
}

impl<'a, O: Sink> Sink for JsonLines<'a, O> {
    ghost use Rattle.std.specs.Prelude.{◌≡◌, ◌⊎◌, ◌+◌, true, IfOk, OnOk, OnErr};
    ghost use Rattle.std.specs.Io.{WritesAtMost};
    ghost use Rattle.fits_stream.specs.Stream.{FailsToWrite, Writes};
    ghost use Rattle.fits_json.specs.JsonLines.{json_sink, PassesOn};

    ghost state = { json_sink };

    // What is passed on goes to the sink below, and a call fails only where memory was refused or
    // one of that sink's failed.
    fn write(&mut self, piece: &[u8]) -> io::Result<usize>
        ensures bound { WritesAtMost result piece.now }
        ensures ok { IfOk result (λ count. Writes count piece.now
            (json_sink self.old) (json_sink self.new)) }
        ensures err { OnErr result (FailsToWrite (json_sink self.old) (json_sink self.new)) }
        ensures passes { OnOk result (PassesOn self.old.passed self.new.passed
            (O.state self.old.sink).contents (O.state self.new.sink).contents) }
        ensures why { OnErr result ((self.new.lacks ≡ true)
            ⊎ ((O.state self.new.sink).failures ≡ (O.state self.old.sink).failures + 1)) }
    {
        self.unflushed.tick();
        match take_line(
            &mut self.sink,
            self.alloc,
            self.name,
            self.forms,
            piece,
            &mut self.held,
            &mut self.passed,
        ) {
            Ok(count) => {
                let (taken, _) = piece.split_at(count);
                self.told.add(taken);
                Ok(count)
            }
            Err(LineFault::Memory) => {
                self.failed.tick();
                self.lacks = true;
                Err(io::Error::from(ErrorKind::OutOfMemory))
            }
            Err(LineFault::Failed(error)) => {
                self.failed.tick();
                Err(error)
            }
        }
    }

    fn flush(&mut self) -> io::Result<()> {
        match self.sink.flush() {
            Ok(()) => {
                self.unflushed = Count::new();
                Ok(())
            }
            Err(error) => {
                self.failed.tick();
                Err(error)
            }
        }
    }
}

// Takes what comes first of a piece of one line, and passes the line on if it ends there. It says
// how many bytes it took.
fn take_line<O: Sink>(
    sink: &mut O,
    alloc: Global,
    name: &str,
    forms: &[&[Column]],
    piece: &[u8],
    held: &mut Vec<u8>,
    passed: &mut GoneBytes,
) -> Result<usize, LineFault>
    ensures within { IfOk result (λ count. count ≤ length piece.now) }
    ensures some { IfOk result (λ count. 0 < length piece.now → 0 < count) }
    ensures taken { IfOk result (λ count. TakesLine name.now forms.now (take count piece.now)
        held.old.items held.new.items passed.old.bytes passed.new.bytes
        (O.state sink.old).contents (O.state sink.new).contents) }
    ensures err { IfErr result (LineFails (O.state sink.old) (O.state sink.new)) }
{
    let len = len_before(piece, b'\n');
    let (part, rest) = piece.split_at(len);
    held.extend_from_slice(part)?;
    if rest.is_empty() {
        return Ok(len);
    }
    pass_on(sink, alloc, name, forms, held, passed)?;
    held.clear();
    Ok(len + 1)
}

// Passes the JSON of a line on.
fn pass_on<O: Sink>(
    sink: &mut O,
    alloc: Global,
    name: &str,
    forms: &[&[Column]],
    line: &[u8],
    passed: &mut GoneBytes,
) -> Result<(), LineFault>
    ensures ok { OnOk result (Prints (json_line name.now forms.now line.now)
        (O.state sink.old) (O.state sink.new)) }
    ensures passed { OnOk result (passed.new.bytes
        ≡ passed.old.bytes ++ json_line name.now forms.now line.now) }
    ensures reads { OnOk result (ReadsAsLine name.now forms.now line.now) }
    ensures err { IfErr result (LineFails (O.state sink.old) (O.state sink.new)) }
{
    let json = json_of_line(alloc, name, forms, line)?;
    match write_all(sink, &json) {
        Ok(()) => {
            passed.add(&json);
            Ok(())
        }
        Err(error) => Err(LineFault::Failed(error)),
    }
}
