ghost use Rattle.std.specs.Prelude.{◌≡◌, ◌+◌, ◌<◌, ◌≤◌, ◌==◌, length, take, false, true, if◌then◌else◌, IfOk, OnOk, OnErr};
ghost use Rattle.std.specs.Io.{WritesAtMost};
ghost use Rattle.fits_stream.specs.Named.{is_one_line, line_begins, unnamed};
ghost use Rattle.fits_stream.specs.Stream.{Gains, Stays};

use crate::count::Count;
use crate::sink::Sink;
use std::io;
use std::io::ErrorKind;
use std::marker::Model;

/// A sink that puts a name before each line of what is written to it.
///
/// It holds what was written since it was made. What the sink below holds ends with that, the name
/// before each line: also where a call failed, since the next one goes on in the middle of a name.
#[derive(Drop)]
pub struct NamedLines<'a, O: Sink> {
    sink: O,
    name: &'a [u8],
    // How many bytes of the name the next line still wants.
    left: usize,
    sent: Count,
    unflushed: Count,
}

impl<'a, O: Sink> Model for NamedLines<'a, O> {
    ghost use Rattle.fits_stream.specs.Named.{IsNaming, Naming};

    ghost Value = { Naming O };

    ghost view = { λ it. record {
      sink = it.sink;
      name = it.name.now;
      left = it.left;
      sent = it.sent.total;
      unflushed = it.unflushed.total;
    } };

    ghost invariant = { λ it. IsNaming it.name.now it.left it.sent.total it.unflushed.total
        (O.state it.sink) };
}

impl<'a, O: Sink> NamedLines<'a, O> {
    ghost use Rattle.std.specs.Prelude.{◌≡◌, [], length, IfSome, Some};
    ghost use Rattle.fits_stream.specs.Named.{told_of, IsNamed};

    /// Puts a name before each line that goes to a sink. None is written yet.
    pub fn new(sink: O, name: &'a [u8]) -> NamedLines<'a, O>
        ensures sink { result.sink ≡ sink }
        ensures name { result.name ≡ name.now }
        ensures empty { IfSome (O.state sink).contents.told (λ bytes. told_of result.name
            result.left result.sent (O.state sink).contents.told ≡ Some []) }
        ensures none { IfSome (O.state sink).contents.taken (λ bytes. told_of result.name
            result.left result.sent (O.state sink).contents.taken ≡ Some []) }
    {
        NamedLines {
            sink,
            name,
            left: name.len(),
            sent: Count::new(),
            unflushed: Count::new(),
        }
    }

    /// The sink below again. Its last bytes are what was written, the name before each line.
    pub fn into_inner(self) -> O
        ensures sink { result ≡ self.entry.sink }
        ensures named { IsNamed self.entry.name self.entry.left self.entry.sent
            (O.state result).contents.told (told_of self.entry.name self.entry.left
            self.entry.sent (O.state result).contents.told) }
        ensures taken { IsNamed self.entry.name self.entry.left self.entry.sent
            (O.state result).contents.taken (told_of self.entry.name self.entry.left
            self.entry.sent (O.state result).contents.taken) }
    {
        let NamedLines { sink, .. } = self;
        sink
    }
}

impl<'a, O: Sink> Sink for NamedLines<'a, O> {
    ghost use Rattle.fits_stream.specs.Named.{unnamed};

    ghost state = { λ it. record {
      contents = unnamed it.name it.left it.sent (O.state it.sink).contents;
      failures = (O.state it.sink).failures;
      unflushed = it.unflushed;
    } };

    fn write(&mut self, piece: &[u8]) -> io::Result<usize> {
        self.unflushed.tick();
        let line = first_line(piece);
        if line.is_empty() {
            return Ok(0);
        }
        write_name(&mut self.sink, self.name, &mut self.left, &mut self.sent)?;
        write_line(
            &mut self.sink,
            self.name,
            line,
            &mut self.left,
            &mut self.sent,
        )
    }

    fn flush(&mut self) -> io::Result<()> {
        self.sink.flush()?;
        self.unflushed = Count::new();
        Ok(())
    }
}

// Writes what is left of a name.
#[tactic(auto, using(crate::proofs::NamedLemmas::naming_steps))]
fn write_name<O: Sink>(
    sink: &mut O,
    name: &[u8],
    left: &mut usize,
    sent: &mut Count,
) -> io::Result<()>
    requires { left.old ≤ length name.now }
    ensures within { left.new ≤ length name.now }
    ensures kept { Stays (unnamed name.now left.old sent.old.total (O.state sink.old).contents)
        (unnamed name.now left.new sent.new.total (O.state sink.new).contents) }
    ensures whole { OnOk result (left.new ≡ 0) }
    ensures quiet { OnOk result ((O.state sink.new).failures ≡ (O.state sink.old).failures) }
    ensures failed { OnErr result
        ((O.state sink.new).failures ≡ (O.state sink.old).failures + 1) }
{
    while *left > 0 {
        let n = sink.write(&name[name.len() - *left..])?;
        if n == 0 {
            return Err(io::Error::from(ErrorKind::WriteZero));
        }
        *left -= n;
        sent.add(n);
    }
    Ok(())
}

// Writes a line after its name, or a part of it.
#[tactic(auto, using(crate::proofs::NamedLemmas::naming_steps))]
fn write_line<O: Sink>(
    sink: &mut O,
    name: &[u8],
    line: &[u8],
    left: &mut usize,
    sent: &mut Count,
) -> io::Result<usize>
    requires named { left.old ≡ 0 }
    requires line { is_one_line line.now ≡ true }
    requires some { 0 < length line.now }
    ensures within { left.new ≤ length name.now }
    ensures bound { WritesAtMost result line.now }
    ensures ok { IfOk result (λ count. Gains
        (unnamed name.now left.old sent.old.total (O.state sink.old).contents)
        (unnamed name.now left.new sent.new.total (O.state sink.new).contents)
        (take count line.now)) }
    ensures quiet { IfOk result (λ count. (O.state sink.new).failures
        ≡ (O.state sink.old).failures + (if count == 0 then 1 else 0)) }
    ensures kept { OnErr result (Stays
        (unnamed name.now left.old sent.old.total (O.state sink.old).contents)
        (unnamed name.now left.new sent.new.total (O.state sink.new).contents)) }
    ensures failed { OnErr result
        ((O.state sink.new).failures ≡ (O.state sink.old).failures + 1) }
{
    let n = sink.write(line)?;
    if n == 0 {
        return Ok(0);
    }
    let (taken, _) = line.split_at(n);
    sent.add(n);
    if ends_line(taken) {
        *left = name.len();
    }
    Ok(n)
}

// The first line, with its line feed, if there is one.
#[tactic(auto, using(crate::proofs::NamedLemmas::line_steps))]
fn first_line(bytes: &[u8]) -> &[u8]
    ensures front { result.now ≡ take (length result.now) bytes.now }
    ensures line { is_one_line result.now ≡ true }
    ensures some { 0 < length bytes.now → 0 < length result.now }
    ensures within { length result.now ≤ length bytes.now }
{
    for (i, byte) in bytes.iter().enumerate() {
        if *byte == b'\n' {
            let (line, _) = bytes.split_at(i + 1);
            return line;
        }
    }
    bytes
}

// Whether a line ends in a line feed.
#[tactic(auto, using(crate::proofs::NamedLemmas::line_steps))]
fn ends_line(line: &[u8]) -> bool
    ensures { result ≡ line_begins false line.now }
{
    match line {
        [.., last] => *last == b'\n',
        [] => false,
    }
}
