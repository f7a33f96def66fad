//! The names of the axes' keywords.
ghost use Rattle.std.specs.Prelude.{◌≡◌, ◌<◌, ◌+◌};
ghost use Rattle.fits_rules.specs.Shape.{axis_name};

use fits_card::Name;

/// The name of the keyword NAXISn, for `n` below 1000 (FITS Standard 4.0, section 4.4.1.1).
#[tactic(auto, using(crate::proofs::ShapeLemmas::name_steps))]
pub fn axis_name(n: usize) -> Name
    requires { n < 1000 }
    ensures { result ≡ axis_name n }
{
    let ones = digit(n % 10);
    let tens = digit(n / 10 % 10);
    let hundreds = digit(n / 100);
    if n < 10 {
        Name([b'N', b'A', b'X', b'I', b'S', ones, b' ', b' '])
    } else if n < 100 {
        Name([b'N', b'A', b'X', b'I', b'S', tens, ones, b' '])
    } else {
        Name([b'N', b'A', b'X', b'I', b'S', hundreds, tens, ones])
    }
}

// The digit of a number below 10.
fn digit(number: usize) -> u8
    requires { number < 10 }
    ensures { result ≡ 48 + number }
{
    b'0' + number as u8
}
