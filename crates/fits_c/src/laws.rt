//! Laws of the definitions, each the contract of a function that does nothing.
ghost use Rattle.std.specs.Prelude.{◌≡◌, ◌≤◌, ℕ, All, List, length};
ghost use Rattle.fits_passing.specs.File.{FileParts, IsFileOf};
ghost use Rattle.fits_script.specs.declared.line_reading.LineReading.{LineReading};
ghost use Rattle.fits_cli.specs.Answer.{line_answer, line_left, Standing};
ghost use Rattle.fits_cli.specs.Output.{Output, IsOutputOf};
ghost use Rattle.fits_cli.specs.Script.{ended_lines, HasNoLineFeed};
ghost use Rattle.fits_cli.specs.Terms.{plain};
ghost use Rattle.fits_cli.specs.declared.limits.TheConstants.{SCRIPT_LIMIT};
ghost use Rattle.fits_c.specs.Lines.{left_as, printed_as, said_by, IsOfLines};

/// A line comes in a session to what it comes to in a script: the answer is what is printed of it, and
/// the file is as it is left.
pub fn a_line_is_one_of_a_script()
    ensures answer { (before : Standing) (reading : LineReading) → line_answer before reading
        ≡ printed_as before.line (said_by before.marked reading) }
    ensures left { (before : Standing) (reading : LineReading) → (line_left before reading).marked
        ≡ left_as before.marked (said_by before.marked reading) }
{}

/// Lines that are done one by one are a script: its output has their answers, and saves the file that
/// they leave.
pub fn lines_are_a_script()
    ensures { (bytes : List ℕ) (file : FileParts) (lines : List (List ℕ)) → IsFileOf bytes file
        → All HasNoLineFeed lines → length (ended_lines lines) ≤ SCRIPT_LIMIT
        → (output : Output) × IsOutputOf plain bytes (ended_lines lines) output
        × IsOfLines file lines output }
{
    a_line_is_one_of_a_script();
}
