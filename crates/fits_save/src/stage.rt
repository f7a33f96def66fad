use crate::act::Act;

/// What stands at a path, and under a name beside it, while a result is saved.
#[derive(Clone, Copy)]
pub enum Stage {
    /// The path is as it was, and nothing stands beside it.
    Untouched,
    /// The same, and what stands at the path is what was opened there.
    Checked,
    /// The path is as it was; a part of the result stands beside it.
    Partial,
    /// The path is as it was; the whole result stands beside it, on the disk.
    Whole,
    /// The same, and what stands at the path is what was opened there.
    Agreed,
    /// What stands at the path is written over; the whole result stands beside it, on the disk.
    Copying,
    /// The whole result stands at the path and beside it.
    Both,
    /// The whole result stands at the path.
    Placed,
    /// What stands at the path was emptied, and is written: a run that is broken off leaves a part.
    Exposed,
    /// What stands at the path keeps no bytes: a device or a pipe, to which they are passed on.
    Passing,
    /// A file may be lost.
    Lost,
}

impl Stage {
    ghost use Rattle.std.specs.Prelude.{◌≡◌};
    ghost use Rattle.fits_save.specs.Stages.{after};

    /// The stage after a call that was done.
    pub fn after(self, act: Act) -> Stage
        ensures { result ≡ after act self }
    {
        match (act, self) {
            (Act::Begin, Stage::Untouched) => Stage::Partial,
            (Act::Write, Stage::Partial) => Stage::Partial,
            (Act::Write, Stage::Exposed) => Stage::Exposed,
            (Act::Write, Stage::Passing) => Stage::Passing,
            (Act::Settle, Stage::Partial) => Stage::Whole,
            (Act::Compare, Stage::Untouched) => Stage::Checked,
            (Act::Compare, Stage::Whole) => Stage::Agreed,
            (Act::Rename, Stage::Agreed) => Stage::Placed,
            (Act::Link, Stage::Partial) => Stage::Both,
            (Act::Overwrite, Stage::Agreed) => Stage::Copying,
            (Act::Finish, Stage::Copying) => Stage::Both,
            (Act::Clear, Stage::Partial | Stage::Whole | Stage::Agreed) => Stage::Untouched,
            (Act::Clear, Stage::Both | Stage::Placed) => Stage::Placed,
            (Act::Expose, Stage::Checked) => Stage::Exposed,
            (Act::Pass, Stage::Untouched) => Stage::Passing,
            _ => Stage::Lost,
        }
    }
}
