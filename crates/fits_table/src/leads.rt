//! The leads of the keywords of columns.
ghost use Rattle.std.specs.Prelude.{◌≡◌, ◌<◌};
ghost use Rattle.fits_table.specs.Leads.{column_leads};

use crate::column_leads::ColumnLeads;
use crate::column_names::{column_name, dimensions_name};
use crate::header_cards::HeaderCards;
use fits_rules::axis_name;

/// The leads of the keywords of column n.
#[tactic(auto, unfolding(crate::specs::Leads::column_leads))]
pub(crate) fn column_leads<H: HeaderCards>(cards: &mut H, n: usize) -> ColumnLeads
    requires { n < 1000 }
    ensures value { result ≡ column_leads (H.cards cards.old) n }
    ensures same { H.cards cards.new ≡ H.cards cards.old }
{
    let axis = axis_name(n);
    let form = cards.lead(&column_name(b"TFORM", &axis));
    let start = cards.lead(&column_name(b"TBCOL", &axis));
    let name = cards.lead(&column_name(b"TTYPE", &axis));
    let dimensions = cards.lead(&dimensions_name(&axis));
    let null = cards.lead(&column_name(b"TNULL", &axis));
    let scale = cards.lead(&column_name(b"TSCAL", &axis));
    let zero = cards.lead(&column_name(b"TZERO", &axis));
    let display = cards.lead(&column_name(b"TDISP", &axis));
    ColumnLeads {
        form,
        start,
        name,
        dimensions,
        null,
        scale,
        zero,
        display,
    }
}
