use std::marker::Model;

/// How many marks there are.
pub(crate) const MARK_COUNT: usize = 4096;

/// Marks of numbers, by which most that weren't marked are told at once: several numbers share one.
/// Contracts see the marks.
#[derive(Drop)]
pub(crate) struct Marks {
    marks: [bool; MARK_COUNT],
}

impl Model for Marks {
    ghost use Rattle.std.specs.Prelude.{Bool, List};

    ghost Value = { List Bool };

    ghost view = { λ it. it.marks };
}

impl Marks {
    ghost use Rattle.std.specs.Prelude.{◌≡◌, ℕ, false, true};
    ghost use Rattle.fits_table.specs.Marks.{is_marked};

    /// None is marked.
    #[tactic(auto, using(crate::proofs::MarkLemmas::new_steps))]
    pub fn new() -> Marks
        ensures { (number : ℕ) → is_marked result number ≡ false }
    {
        Marks {
            marks: [false; MARK_COUNT],
        }
    }

    /// Whether a number was marked, or another that shares its mark.
    pub fn has(&self, number: u64) -> bool
        ensures { result ≡ is_marked self.now number }
    {
        self.marks[(number % MARK_COUNT as u64) as usize]
    }

    /// Marks a number.
    #[tactic(auto, using(crate::proofs::MarkLemmas::add_steps))]
    pub fn add(&mut self, number: u64)
        ensures marked { is_marked self.new number ≡ true }
        ensures kept { (other : ℕ) → is_marked self.old other ≡ true
            → is_marked self.new other ≡ true }
    {
        self.marks[(number % MARK_COUNT as u64) as usize] = true;
    }
}
