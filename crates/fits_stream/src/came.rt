ghost use Rattle.std.specs.Prelude.{◌≡◌, ◌<◌, ◌≤◌, [], ◌∷◌, length, take, Some};
ghost use Rattle.std.specs.Borrow.{ftrue};
ghost use Rattle.fits_stream.specs.Log.{coded_log, ended, grown, met_end, passed, turned, unbegun, Adds, HasEnded, Log, NotesEnd};

use std::marker::{Model, PhantomData};

/// What came of a file or a stream, byte by byte, each with its place. It holds none of them, and only
/// contracts see them.
///
/// Outside this module it can only be begun anew with none, grow, and be turned to another place.
#[derive(Drop)]
pub struct Came {
    marker: PhantomData<()>,
    pub ghost log: { Log } by { coded_log },
}

impl Model for Came {
    ghost also_owns = { λ _. ftrue };
}

impl Came {
    pub fn none() -> Came
        ensures { result.log ≡ unbegun }
    {
        Came {
            marker: PhantomData,
        }
    }

    fn push(&mut self, byte: u8)
        ensures { self.new.log ≡ grown self.old.log (byte ∷ []) }
    {}

    fn pass_one(&mut self)
        ensures { self.new.log ≡ passed self.old.log 1 }
    {}

    /// What comes next lies at this place.
    pub fn turn(&mut self, place: u64)
        ensures { self.new.log ≡ turned self.old.log place }
    {}

    /// A read into this room gave so many of its bytes. Where it gave none and could have, that is its
    /// end.
    #[tactic(auto, using(crate::proofs::LogLemmas::giving_steps))]
    pub fn give(&mut self, room: &[u8], count: usize)
        requires { count ≤ length room.now }
        ensures adds { Adds self.old.log self.new.log (take count room.now) }
        ensures read { self.new.log.unread ≡ self.old.log.unread }
        ensures ends { count ≡ 0 → 0 < length room.now → HasEnded self.new.log }
        ensures noted { NotesEnd (met_end count (length room.now))
            (Some self.old.log) (Some self.new.log) }
    {
        if count == 0 {
            if !room.is_empty() {
                self.end();
            }
            return;
        }
        self.add(&room[..count]);
    }

    // A read gave none.
    fn end(&mut self)
        ensures { self.new.log ≡ ended self.old.log }
    {}

    // The bytes of this piece came too.
    fn add(&mut self, piece: &[u8])
        ensures { self.new.log ≡ grown self.old.log piece.now }
    {
        for byte in piece {
            self.push(*byte);
        }
    }

    /// So many bytes are gone past unread, whatever they are.
    pub fn pass(&mut self, count: u64)
        ensures { self.new.log ≡ passed self.old.log count }
    {
        for time in 0..count {
            self.pass_one();
        }
    }
}
