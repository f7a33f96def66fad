//! Which cards go on with a long string, by one pass over their notes (FITS Standard 4.0, section
//! 4.2.1.2).
ghost use Rattle.std.specs.Prelude.{◌≡◌, length, map};
ghost use Rattle.fits_codes.specs.declared.surrounding.Surrounding.{Surrounding};
ghost use Rattle.fits_header.specs.Notes.{links_in};

use crate::notes::Notes;
use fits_codes::Surrounding;

/// Marks the links, and no repeated name.
#[tactic(auto, using(crate::proofs::MarkedLinkLemmas::link_steps))]
pub(crate) fn mark_links(notes: &Notes, surroundings: &mut [Surrounding])
    requires { length surroundings.old ≡ length notes.now.items }
    ensures len { length surroundings.new ≡ length surroundings.old }
    ensures links { map (λ (s : Surrounding). s.is_link) surroundings.new ≡ links_in notes.now.items }
{
    let mut is_open = false;
    for index in 0..notes.len() {
        let mark = notes.at(index).mark;
        let is_link = is_open && mark.continues;
        surroundings[index] = Surrounding {
            name_before: false,
            value_before: false,
            is_link,
        };
        is_open = (is_link || mark.begins) && mark.is_open;
    }
}
