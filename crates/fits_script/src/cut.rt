//! A text, cut at a byte.
ghost use Rattle.std.specs.Prelude.{◌≡◌, ◌∷◌, ◌++◌, IfNone, IfSome};
ghost use Rattle.fits_script.specs.Cut.{HasNo};

use memchr::memchr;

/// What stands before the first such byte, and what follows it.
pub fn split_once(text: &[u8], separator: u8) -> Option<(&[u8], &[u8])>
    ensures some { IfSome result (λ cut. HasNo separator cut.0.now
        × (text.now ≡ cut.0.now ++ separator ∷ cut.1.now)) }
    ensures none { IfNone result (HasNo separator text.now) }
{
    for (i, byte) in text.iter().enumerate() {
        if *byte == separator {
            let (front, rest) = text.split_at(i);
            let (_, rest) = rest.split_at(1);
            return Some((front, rest));
        }
    }
    None
}

/// The same, of a text in which the byte is likely to stand far from the front, where it isn't the
/// first.
pub fn split_far(text: &[u8], separator: u8) -> Option<(&[u8], &[u8])>
    ensures some { IfSome result (λ cut. HasNo separator cut.0.now
        × (text.now ≡ cut.0.now ++ separator ∷ cut.1.now)) }
    ensures none { IfNone result (HasNo separator text.now) }
{
    match text {
        [first, rest @ ..] if *first == separator => return Some((b"", rest)),
        _ => {}
    }
    let Some(at) = memchr(separator, text) else {
        return None;
    };
    let (front, rest) = text.split_at(at);
    let (_, rest) = rest.split_at(1);
    Some((front, rest))
}
