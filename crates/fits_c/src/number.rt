//! Numbers of 64 bits, as C has them.
ghost use Rattle.std.specs.Prelude.{ℤ, pos};
ghost use Rattle.fits_c.specs.Pixels.{IsSigned, IsUnsigned};

/// A number of 64 bits, with a sign or without.
pub trait Number: Copy {
    ghost use Rattle.std.specs.Prelude.{◌≡◌, IfSome, None};

    ghost value: { Self → ℤ };

    /// There is one of this value.
    ghost Fits: { ℤ → Type 0 };

    /// The one of a value, if there is one.
    fn of(number: i128) -> Option<Self>
        ensures some { IfSome result (λ it. value it ≡ number) }
        ensures none { result ≡ None → Fits number → ⊥ };

    /// The same with more bits.
    fn widen(self) -> i128
        ensures { result ≡ value self };
}

impl Number for i64 {
    ghost value = { λ number. number };

    ghost Fits = { IsSigned };

    fn of(number: i128) -> Option<i64> {
        i64::try_from(number).ok()
    }

    fn widen(self) -> i128 {
        i128::from(self)
    }
}

impl Number for u64 {
    ghost value = { λ number. pos number };

    ghost Fits = { IsUnsigned };

    fn of(number: i128) -> Option<u64> {
        u64::try_from(number).ok()
    }

    fn widen(self) -> i128 {
        i128::from(self)
    }
}
