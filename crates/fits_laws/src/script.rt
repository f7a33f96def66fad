//! Laws of the definitions, each the contract of a function that does nothing.
ghost use Rattle.std.specs.Prelude.{◌≡◌, ◌↔◌, ◌+◌, ◌<◌, ℕ, true, AllPairs, Bool, false, List, Some, drop, length, take, Ok};
ghost use Rattle.fits_laws.specs.Forms.{Says};
ghost use Rattle.fits_laws.specs.Runs.{AllStand, ArePlain, IsEdited, LeavesSums};
ghost use Rattle.fits_script.specs.declared.command.Command.{Command};
ghost use Rattle.fits_script.specs.declared.limits.TheConstants.{LINE_LIMIT};
ghost use Rattle.fits_script.specs.Line.{command_of, reading_of};
ghost use Rattle.fits_passing.specs.File.{FileParts, IsFile};
ghost use Rattle.fits_passing.specs.Headers.{cards_of};
ghost use Rattle.fits_passing.specs.Report.{IsListedBefore};
ghost use Rattle.fits_passing.specs.declared.problem.Problem.{Problem};
ghost use Rattle.fits_cli.specs.Answer.{at_first_line, Standing};
ghost use Rattle.fits_cli.specs.NewErrors.{new_errors, HasMoreErrors};
ghost use Rattle.fits_cli.specs.Output.{standing_after, Output, IsOutputOf};
ghost use Rattle.fits_extended.specs.Stands.{number_at};
ghost use Rattle.fits_tell.specs.Asked.{extension_number, AsksFor};
ghost use Rattle.fits_tell.specs.Report.{warnings_in};
ghost use Rattle.fits_cli.specs.Script.{script_lines, IsCutInLines};
ghost use Rattle.fits_laws.specs.Patches.{ArePlainTerms, RunsWhole};
ghost use Rattle.fits_patch.specs.Making.{script_made};
ghost use Rattle.fits_session.specs.Marked.{Marked};
ghost use Rattle.fits_tell.specs.declared.asked_extension.AskedExtension.{AskedExtension};
ghost use Rattle.fits_tell.specs.declared.level.Level.{Level};
ghost use Rattle.fits_tell.specs.declared.level.Level.TheVariants.{Errors};
ghost use Rattle.fits_cli.specs.declared.terms.Terms.{Terms};

/// What a line comes to is decided by one byte more than a line may have.
pub fn reading_of_a_front()
    ensures { (line : List ℕ) → reading_of (take (LINE_LIMIT + 1) line) ≡ reading_of line }
{}

/// A line within the limit says a command exactly where it has its form.
pub fn what_a_line_says()
    ensures { (line : List ℕ) (command : Command)
        → (command_of line ≡ Ok command) ↔ Says line command }
{}

/// A script is cut into lines in one way.
pub fn one_cut()
    ensures { (text : List ℕ) (ls ms : List (List ℕ)) (x y : List ℕ)
        → IsCutInLines text ls x → IsCutInLines text ms y → (ls ≡ ms) × (x ≡ y) }
{}

/// Every script can be cut into lines.
pub fn a_cut()
    ensures { (text : List ℕ)
        → (lines : List (List ℕ)) × (last : List ℕ) × IsCutInLines text lines last }
{}

/// A run has at most one output.
pub fn one_output()
    ensures { (terms : Terms) (file script : List ℕ) (o p : Output)
        → IsOutputOf terms file script o → IsOutputOf terms file script p → o ≡ p }
{}

/// Every file and script have an output, on any terms.
pub fn an_output()
    ensures { (terms : Terms) (file script : List ℕ)
        → (output : Output) × IsOutputOf terms file script output }
{}

/// Where a report in order has more problems than another of some code that counts, at least one of
/// them is new, and only there.
pub fn more_of_an_error_is_a_new_error()
    ensures { (level : Level) (before after : List Problem) → AllPairs IsListedBefore after
        → HasMoreErrors level before after ↔ (0 < length (new_errors level before after)) }
{}

/// Where warnings don't count, none of what is new is a warning.
pub fn new_errors_are_errors()
    ensures { (before after : List Problem)
        → warnings_in (new_errors Errors before after) ≡ 0 }
{}

/// What the lines of a script leave is what the edits leave that are done, in their order, each
/// accepted in its turn.
pub fn a_script_is_its_edits()
    ensures { (standing : Standing) (lines : List (List ℕ)) → IsEdited standing lines }
{}

/// Where each line stands for a plain one, a script with extended lines is that of these plain lines,
/// each in its place: it prints and leaves the same.
pub fn an_extended_script_is_a_plain_one()
    ensures { (standing : Standing) (lines : List (List ℕ)) → AllStand standing lines
        → ArePlain standing lines }
{}

/// A script that is accepted whole by itself, as each that `diff -s` prints is, is so in a run of
/// `edit` on plain terms: each line is done, none prints anything, and the file that it makes is left.
pub fn a_patch_is_a_run_of_edit()
    ensures { (terms : Terms) (file : FileParts) (script last : List ℕ) (lines : List (List ℕ)) (end : Marked)
        → ArePlainTerms terms → IsCutInLines script lines last → script_made file script ≡ Ok end → RunsWhole terms file (script_lines lines last) end }
{}

/// The name of an extension is one HDU in an extended line and where `cards` and `keys` ask for it.
pub fn names_mean_one_hdu()
    ensures { (file : FileParts) (word : List ℕ) (asked : AskedExtension)
        → AsksFor (drop 1 word) asked
        → number_at file word ≡ extension_number (cards_of file.hdus) asked }
{}

/// Where right sums are kept right, lines leave those of each HDU that was opened with right ones so,
/// wherever it stands then, unless it was released; and the two cards of an HDU with a wrong sum, or
/// with none, byte for byte, unless a line stamps it or changes such a card.
pub fn a_script_keeps_right_sums_right()
    ensures { (terms : Terms) (file : FileParts) (lines : List (List ℕ)) → terms.sums ≡ true
        → IsFile file → LeavesSums terms file lines }
{}

/// Where no edit of a script is accepted, the file and its marks are as they were before the first
/// line. So nothing is lost where such a file is spared.
pub fn no_edit_leaves_the_file()
    ensures { (terms : Terms) (file : FileParts) (lines : List (List ℕ))
        → (standing_after (at_first_line terms file) lines).edited ≡ false
        → (standing_after (at_first_line terms file) lines).marked
        ≡ (at_first_line terms file).marked }
{}

/// What the lines of a script leave of a file is a file: it opens again.
pub fn a_script_leaves_a_file()
    ensures { (terms : Terms) (file : FileParts) (lines : List (List ℕ)) → IsFile file
        → IsFile (standing_after (at_first_line terms file) lines).marked.file }
{}
