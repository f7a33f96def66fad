//! The total of the words of a header that passes by, of which nothing is kept.
ghost use Rattle.std.specs.Prelude.{◌≡◌, ◌≤◌, ◌*◌, ◌/◌, ◌^◌, length};
ghost use Rattle.fits_card.specs.CardList.{ReadsUpTo};
ghost use Rattle.fits_card.specs.Header.{header_bytes};
ghost use Rattle.fits_header.specs.Notes.{notes_of, total_in};
ghost use Rattle.fits_sum.specs.Words.{word_total};

use crate::fill_total::fill_total;
use fits_card::CardList;
use fits_sum::card_total;

/// The total of a header's words, with END and the fill (FITS Standard 4.0, Appendix J). Each card is
/// read once, and it takes no memory.
#[tactic(auto, using(crate::proofs::TotalLemmas::header_steps))]
pub fn header_total(cards: &mut CardList) -> u64
    requires { length (header_bytes cards.old.header) ≤ 2 ^ 34 }
    ensures value { result ≡ word_total (header_bytes cards.old.header) }
    ensures within { result ≤ 4294967295 * (length (header_bytes cards.old.header) / 4) }
    ensures work { ReadsUpTo cards.old cards.new (length cards.old.header.cards) }
{
    // So few cards have a total that 64 bits hold.
    let _few = cards.len();
    let total = cards_total(cards);
    let end = card_total(&cards.end().0);
    total + end + fill_total(cards)
}

// The totals of the cards, added up.
#[tactic(auto, using(crate::proofs::TotalLemmas::total_steps))]
fn cards_total(cards: &mut CardList) -> u64
    requires { 20 * length cards.old.header.cards ≤ 2 ^ 32 }
    ensures value { result ≡ total_in (notes_of cards.old.header.cards) }
    ensures within { result ≤ 4294967295 * (20 * length cards.old.header.cards) }
    ensures work { ReadsUpTo cards.old cards.new (length cards.old.header.cards) }
{
    let mut total = 0u64;
    for index in 0..cards.len() {
        total += card_total(&cards.card(index + 1).0);
    }
    total
}
