use crate::card::Card;
use crate::card_list::CardList;

/// What stands where a header should.
#[derive(Drop)]
pub enum HeaderFront {
    /// A header.
    Whole(CardList),
    /// None: the cards before END, whose block isn't whole. Where there is no END there are none.
    Cut(Vec<Card>),
}
