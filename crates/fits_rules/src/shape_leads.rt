ghost use Rattle.std.specs.Prelude.{◌≡◌, Some, None, if◌then◌else◌};
ghost use Rattle.std.specs.Option.{option_or};
ghost use Rattle.fits_rules.specs.Lead.{is_value_of};

use crate::leads::is_value_of;
use fits_card::{Card, CardList, Name};

/// The leads of GROUPS, PCOUNT and GCOUNT, as far as they are there: what counts for a shape
/// wherever it stands.
#[derive(Drop)]
pub struct ShapeLeads {
    pub groups: Option<Card>,
    pub pcount: Option<Card>,
    pub gcount: Option<Card>,
}

impl ShapeLeads {
    ghost use Rattle.std.specs.Prelude.{length};
    ghost use Rattle.fits_card.specs.CardList.{ReadsUpTo};
    ghost use Rattle.fits_rules.specs.Lead.{AreLeads};

    /// Those of a header, found in one pass. It takes no memory.
    pub(crate) fn find(cards: &mut CardList) -> ShapeLeads
        ensures value { AreLeads cards.old.header.cards result }
        ensures work { ReadsUpTo cards.old cards.new (length cards.old.header.cards) }
    {
        let mut leads = ShapeLeads {
            groups: None,
            pcount: None,
            gcount: None,
        };
        for index in 0..cards.len() {
            let card = cards.card(index + 1);
            note(&mut leads.groups, &card, &Name(*b"GROUPS  "));
            note(&mut leads.pcount, &card, &Name(*b"PCOUNT  "));
            note(&mut leads.gcount, &card, &Name(*b"GCOUNT  "));
        }
        leads
    }
}

// Keeps the next card where it is the first of this name with a value.
fn note(lead: &mut Option<Card>, card: &Card, name: &Name)
    ensures { lead.new ≡
        option_or lead.old (if is_value_of name.now card.now then Some card.now else None) }
{
    if lead.is_none() && is_value_of(card, name) {
        *lead = Some(*card);
    }
}
