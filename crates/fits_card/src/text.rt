//! Which bytes are characters of text.
ghost use Rattle.std.specs.Prelude.{◌≡◌, nat_eq};
ghost use Rattle.std.specs.List.{list_all};
ghost use Rattle.fits_card.specs.Card.{is_text, is_text_byte};

/// How many bytes are compared at once.
const LANES: usize = 64;

// Whether a byte is a character of text.
fn is_character(byte: u8) -> bool
    ensures { result ≡ is_text_byte byte }
{
    matches!(byte, b' '..=b'~')
}

/// Whether every byte is a character of text, from a space to a tilde.
#[tactic(auto, unfolding(crate::specs::Card::is_text))]
pub fn is_text(text: &[u8]) -> bool
    ensures { result ≡ is_text text.now }
{
    text.iter().all(|byte| is_character(*byte))
}

/// The same of a card's bytes: it doesn't stop at the first other one, so that many are looked at
/// side by side.
#[tactic(auto, unfolding(crate::specs::Card::is_text))]
pub(crate) fn are_characters(bytes: &[u8; 80]) -> bool
    ensures { result ≡ is_text bytes.now }
{
    let mut all = true;
    for byte in bytes {
        all &= is_character(*byte);
    }
    all
}

/// Whether every byte is a space. It goes on, a piece at a time, as long as they are.
pub(crate) fn are_spaces(text: &[u8]) -> bool
    ensures { result ≡ list_all (nat_eq 32) text.now }
{
    let mut rest = text;
    'pieces: while LANES <= rest.len() {
        let (piece, more) = rest.split_at(LANES);
        if !is_blank(piece) {
            return false;
        }
        rest = more;
    }
    is_blank(rest)
}

// The same of a piece, whose bytes are looked at side by side.
fn is_blank(piece: &[u8]) -> bool
    ensures { result ≡ list_all (nat_eq 32) piece.now }
{
    let mut all = true;
    for byte in piece {
        all &= *byte == b' ';
    }
    all
}
