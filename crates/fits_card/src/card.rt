ghost use Rattle.std.specs.Prelude.{◌≡◌, ◌≤◌, length};
ghost use Rattle.fits_card.specs.declared.card.TheConstants.{CARD_LEN};

use crate::name::Name;
use crate::text::are_characters;
use std::marker::Model;

/// How many bytes a card has (FITS Standard 4.0, section 4.1.1).
pub const CARD_LEN: usize = 80;

/// A keyword record: one line of a header, whatever its bytes.
#[derive(Clone, Copy, PartialEq, Eq, Debug)]
pub struct Card(pub [u8; 80]);

impl Model for Card {
    ghost use Rattle.std.specs.Prelude.{ℕ, List};

    ghost Value = { List ℕ };

    ghost view = { λ card. card.0 };

    ghost inverse = { λ bytes. record { 0 = bytes } };
}

impl Card {
    ghost use Rattle.fits_card.specs.Card.{keyword_name, has_value, is_end, is_text, card_of_text};

    /// The card that begins with this text and goes on in spaces.
    pub fn padded(text: &[u8]) -> Card
        requires { length text.now ≤ CARD_LEN }
        ensures { result ≡ card_of_text text.now }
    {
        let mut card = [b' '; CARD_LEN];
        let (front, _) = card.split_at_mut(text.len());
        front.copy_from_slice(text);
        Card(card)
    }

    pub fn bytes(&self) -> &[u8]
        ensures value { result.now ≡ self.now }
        ensures len { length self.now ≡ CARD_LEN }
    {
        &self.0
    }

    pub fn name(&self) -> Name
        ensures { result ≡ keyword_name self.now }
    {
        let [a, b, c, d, e, f, g, h, ..] = self.0;
        Name([a, b, c, d, e, f, g, h])
    }

    /// Whether the card has a value field, readable or not.
    #[tactic(auto, unfolding(crate::specs::Card::has_value))]
    pub fn has_value(&self) -> bool
        ensures { result ≡ has_value self.now }
    {
        self.0[8] == b'=' && self.0[9] == b' ' && !self.name().is_valueless()
    }

    /// Whether the card is named END, and so ends a header.
    #[tactic(auto, unfolding(crate::specs::Card::is_end))]
    pub fn is_end(&self) -> bool
        ensures { result ≡ is_end self.now }
    {
        self.name().is_end()
    }

    /// Whether every byte is a character of text, from a space to a tilde.
    pub fn is_text(&self) -> bool
        ensures value { result ≡ is_text self.now }
        ensures size { length self.now ≡ CARD_LEN }
    {
        are_characters(&self.0)
    }
}
