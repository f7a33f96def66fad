ghost use Rattle.std.specs.Prelude.{◌≡◌, true, IfOk};
ghost use Rattle.std.specs.List.{list_all};
ghost use Rattle.fits_table.specs.Marks.{is_card_marked, root_number};

use crate::header_cards::HeaderCards;
use crate::marks::Marks;
use fits_card::{Card, CardList, Name};
use fits_header::KeyIndex;
use std::alloc::{AllocError, Global};
use std::marker::Model;

/// The cards of a header beside an index of their names, and the marks of the roots that there are:
/// most keywords of columns have none.
#[derive(Drop)]
pub(crate) struct IndexedCards {
    cards: CardList,
    index: KeyIndex,
    roots: Marks,
}

impl Model for IndexedCards {
    ghost use Rattle.std.specs.Prelude.{◌≡◌, true};
    ghost use Rattle.std.specs.List.{list_all};
    ghost use Rattle.fits_card.specs.CardList.{CardStore};
    ghost use Rattle.fits_header.specs.Index.{IsIndexOf};
    ghost use Rattle.fits_table.specs.Marks.{is_card_marked};

    ghost Value = { CardStore };

    ghost view = { λ it. it.cards };

    ghost invariant = { λ it. record {
      index : IsIndexOf it.index.entries it.cards.header.cards;
      roots : list_all (is_card_marked it.roots) it.cards.header.cards ≡ true;
    } };
}

impl IndexedCards {
    ghost use Rattle.fits_rules.specs.Lead.{lead_place};

    /// Each card is read twice.
    pub fn open(alloc: Global, cards: CardList) -> Result<IndexedCards, AllocError>
        ensures { IfOk result (λ it. it.header ≡ cards.header) }
    {
        let mut cards = cards;
        let index = KeyIndex::open(alloc, &mut cards)?;
        let roots = roots_of(&mut cards);
        Ok(IndexedCards {
            cards,
            index,
            roots,
        })
    }

    // Where the lead of a name stands.
    fn place(&self, name: &Name) -> Option<usize>
        ensures { result ≡ lead_place self.now.header.cards name.now }
    {
        self.index.lead(name)
    }

    /// The cards alone.
    pub fn into_cards(self) -> CardList
        ensures { result.header ≡ self.header }
    {
        let IndexedCards { cards, .. } = self;
        cards
    }
}

impl HeaderCards for IndexedCards {
    ghost cards = { λ it. it.header.cards };

    fn count(&self) -> usize {
        self.cards.len()
    }

    #[tactic(auto, using(crate::proofs::FieldsLemmas::card_steps))]
    fn card_at(&mut self, place: usize) -> Card {
        self.cards.card(place)
    }

    #[tactic(auto, using(fits_rules::proofs::LeadCardLemmas::lead_card_steps, crate::proofs::MarkLemmas::lead_steps))]
    fn lead(&mut self, name: &Name) -> Option<Card> {
        if !self.roots.has(root_number(name)) {
            return None;
        }
        let place = self.place(name)?;
        Some(self.cards.card(place))
    }
}

// A number of a keyword, by its second letter and its fourth, by which the roots of columns are told
// apart.
fn root_number(name: &Name) -> u64
    ensures { result ≡ root_number name.now }
{
    let [_, second, _, fourth, ..] = name.0;
    second as u64 * 32 + fourth as u64
}

// The marks of the cards' keywords.
fn roots_of(cards: &mut CardList) -> Marks
    ensures value { list_all (is_card_marked result) cards.old.header.cards ≡ true }
    ensures same { cards.new.header ≡ cards.old.header }
{
    let mut roots = Marks::new();
    for i in 0..cards.len() {
        roots.add(root_number(&cards.card(i + 1).name()));
    }
    roots
}
