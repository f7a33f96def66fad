ghost use Rattle.std.specs.Prelude.{◌≡◌, ◌⊎◌, Bool, true, false, OnErr, OnOk};
ghost use Rattle.std.specs.Io.{WritesAtMost};
ghost use Rattle.fits_save.specs.Stages.{after};
ghost use Rattle.fits_save.specs.declared.stage.Stage.{Stage};

use crate::act::Act;
use crate::begin_fault::BeginFault;
use crate::stage::Stage;
use crate::taking::Taking;
use std::io;

/// A path at which a result is saved, and the new file beside it.
pub trait Place {
    /// What stands at both.
    ghost stage: { Self → Stage };

    /// Whether a call failed.
    ghost failed: { Self → Bool };

    /// Whether what stood at the path, when it was looked at, wasn't what was opened there.
    ghost differs: { Self → Bool };

    /// What stands at both.
    fn reached(&self) -> Stage
        ensures { result ≡ stage self.now };

    /// Whether what stands at the path stays whole until all is saved: it has no bytes of its own, or
    /// none stands there, or a new file can stand beside it. One is made, and removed again.
    fn spares(&mut self) -> bool
        ensures { stage self.new ≡ stage self.old };

    /// Makes a new file beside the path, or opens a device or a pipe there.
    fn begin(&mut self) -> Result<(), BeginFault>
        ensures ok { OnOk result ((stage self.new ≡ after Act.Begin (stage self.old))
            ⊎ (stage self.new ≡ after Act.Pass (stage self.old))) }
        ensures err { OnErr result (stage self.new ≡ stage self.old) }
        ensures failed { OnErr result (failed self.new ≡ true) };

    /// Empties what stands at the path, which is written in its place then.
    fn expose(&mut self) -> io::Result<()>
        ensures ok { OnOk result (stage self.new ≡ after Act.Expose (stage self.old)) }
        ensures err { OnErr result (stage self.new ≡ stage self.old) }
        ensures failed { OnErr result (failed self.new ≡ true) };

    /// Writes a prefix of a piece, and says how many bytes it has.
    fn write(&mut self, piece: &[u8]) -> io::Result<usize>
        ensures bound { WritesAtMost result piece.now }
        ensures stage { stage self.new ≡ after Act.Write (stage self.old) };

    /// Waits until the new file has reached the disk.
    fn settle(&mut self) -> io::Result<()>
        ensures ok { OnOk result (stage self.new ≡ after Act.Settle (stage self.old)) }
        ensures err { OnErr result (stage self.new ≡ stage self.old) }
        ensures failed { OnErr result (failed self.new ≡ true) };

    /// Whether what stands at the path is what was opened there. From then on no other run of the
    /// program takes the path.
    fn agrees(&mut self) -> bool
        ensures yes { result ≡ true → stage self.new ≡ after Act.Compare (stage self.old) }
        ensures no { result ≡ false → stage self.new ≡ stage self.old }
        ensures differs { result ≡ false → differs self.new ≡ true };

    /// How the new file takes the path.
    fn taking(&self) -> Taking;

    /// Gives the new file the path's name too; a file that came meanwhile stays.
    fn link(&mut self) -> io::Result<()>
        ensures ok { OnOk result (stage self.new ≡ after Act.Link (stage self.old)) }
        ensures err { OnErr result (stage self.new ≡ stage self.old) }
        ensures failed { OnErr result (failed self.new ≡ true) };

    /// Gives the new file the path's name. The old file keeps another, where that is wanted.
    fn rename(&mut self) -> io::Result<()>
        ensures ok { OnOk result (stage self.new ≡ after Act.Rename (stage self.old)) }
        ensures err { OnErr result (stage self.new ≡ stage self.old) }
        ensures failed { OnErr result (failed self.new ≡ true) };

    /// Writes the new file over what stands at the path, and waits until that has reached the disk.
    fn overwrite(&mut self) -> io::Result<()>
        ensures ok { OnOk result (stage self.new
            ≡ after Act.Finish (after Act.Overwrite (stage self.old))) }
        ensures err { OnErr result (stage self.new ≡ after Act.Overwrite (stage self.old)) }
        ensures failed { OnErr result (failed self.new ≡ true) };

    /// Removes the name beside the path.
    fn clear(&mut self)
        ensures { stage self.new ≡ after Act.Clear (stage self.old) };
}
