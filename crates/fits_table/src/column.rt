ghost use Rattle.std.specs.Prelude.{◌≡◌, option_and_then};
ghost use Rattle.fits_rules.specs.Reads.{string_said};
ghost use Rattle.fits_table.specs.Column.{form_said, start_said, column_of};

use crate::column_leads::ColumnLeads;
use crate::form::Form;
use crate::form_reading::form_of;
use crate::misfits::has_misfit;
use crate::said;
use crate::table_kind::TableKind;
use crate::title::Title;
use fits_card::Card;

/// What a header says of a column, as far as the rules ask.
#[derive(Clone, Copy)]
pub struct Column {
    /// The form that TFORMn says.
    pub form: Option<Form>,
    /// The character of a row that TBCOLn says, counted from 1.
    pub start: Option<u64>,
    /// Whether it has a TDIM, TNULL, TSCAL, TZERO or TDISP that it can't have.
    pub has_misfit: bool,
    /// Whether its name has characters that aren't recommended.
    pub has_odd_name: bool,
}

/// The form that a lead says.
pub(crate) fn form_said(kind: TableKind, lead: &Option<Card>) -> Option<Form>
    ensures { result ≡ form_said kind lead.now }
{
    match lead {
        None => None,
        Some(card) => match said::string_said(card) {
            None => None,
            Some(text) => form_of(kind, text.as_bytes()),
        },
    }
}

/// The place in a row that a lead says.
pub(crate) fn start_said(lead: &Option<Card>) -> Option<u64>
    ensures { result ≡ start_said lead.now }
{
    match lead {
        None => None,
        Some(card) => said::start_said(card),
    }
}

/// What the leads of a column's keywords say of it. It takes no memory.
pub fn column_of(kind: TableKind, leads: &ColumnLeads) -> Column
    ensures { result ≡ column_of kind leads.now }
{
    column_titled(kind, leads, &Title::of(&leads.name))
}

/// The same where its name is read.
#[tactic(auto, unfolding(crate::specs::Column::column_of))]
pub(crate) fn column_titled(kind: TableKind, leads: &ColumnLeads, title: &Title) -> Column
    requires { title.now ≡ option_and_then string_said leads.now.name }
    ensures { result ≡ column_of kind leads.now }
{
    let form = form_said(kind, &leads.form);
    let has_misfit = match form {
        None => false,
        Some(form) => has_misfit(form, leads),
    };
    Column {
        form,
        start: start_said(&leads.start),
        has_misfit,
        has_odd_name: title.is_odd(),
    }
}
