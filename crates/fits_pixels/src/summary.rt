ghost use Rattle.std.specs.Prelude.{◌≡◌};
ghost use Rattle.fits_pixels.specs.Summary.{SummaryLaws};

/// What is known of a part, and can be joined with what is known of the next part.
pub trait Summary: Copy {
    /// What is known of an empty part.
    ghost empty: { Self };

    ghost joined: { Self → Self → Self };

    /// Its numbers lie in their types' ranges, as they do in every value in hand.
    ghost fits: { Self → Type 0 };

    /// `empty` is neutral beside a value that fits, and `joined` is associative.
    ghost laws: { SummaryLaws empty joined fits };

    fn unit() -> Self
        ensures { result ≡ empty };

    fn join(self, other: Self) -> Self
        ensures { result ≡ joined self other };
}
