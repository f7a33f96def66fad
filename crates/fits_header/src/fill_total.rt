ghost use Rattle.std.specs.Prelude.{◌≡◌, ◌≤◌, ◌*◌, ◌/◌, ◌%◌, ◌^◌, length};
ghost use Rattle.fits_sum.specs.Words.{word_total};

use fits_card::CardList;
use fits_sum::words_total;

/// A word of four spaces.
const SPACES: u64 = 0x2020_2020;

/// The total of the words of a header's fill. Where it is spaces they are counted, and none is read.
#[tactic(auto, using(crate::proofs::TotalLemmas::spaces_total))]
pub(crate) fn fill_total(cards: &CardList) -> u64
    requires whole { length cards.now.header.fill % 4 ≡ 0 }
    requires room { length cards.now.header.fill ≤ 2 ^ 34 }
    ensures value { result ≡ word_total cards.now.header.fill }
    ensures within { result ≤ 4294967295 * (length cards.now.header.fill / 4) }
{
    let fill = cards.fill();
    if cards.fill_blank() {
        return SPACES * (fill.len() / 4) as u64;
    }
    words_total(fill)
}
