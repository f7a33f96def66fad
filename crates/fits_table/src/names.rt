//! The names of columns.
ghost use Rattle.std.specs.Prelude.{◌≡◌, true};
ghost use Rattle.std.specs.List.{list_all, list_any};
ghost use Rattle.std.specs.Str.{bytes_eq};
ghost use Rattle.fits_value.specs.Characters.{is_space};
ghost use Rattle.fits_table.specs.Marks.{is_name_marked};
ghost use Rattle.fits_table.specs.Name.{is_recommended, is_plain_name, lowered, is_one_name, are_one, has_twins};

use crate::marks::Marks;
use crate::title::Title;

// Whether a character is recommended in a name.
fn is_recommended(byte: u8) -> bool
    ensures { result ≡ is_recommended byte }
{
    byte.is_ascii_alphanumeric() || byte == b'_'
}

/// Whether a name has letters, digits and underscores alone.
pub(crate) fn is_plain_name(name: &[u8]) -> bool
    ensures { result ≡ is_plain_name name.now }
{
    name.iter().all(|byte| is_recommended(*byte))
}

// Whether the bytes are spaces.
fn are_spaces(text: &[u8]) -> bool
    ensures { result ≡ list_all is_space text.now }
{
    text.iter().all(|byte| *byte == b' ')
}

// Whether two texts differ in the case of letters alone.
#[tactic(auto, using(crate::proofs::NameLemmas::name_steps))]
fn differ_in_case(one: &[u8], other: &[u8]) -> bool
    ensures { result ≡ bytes_eq (lowered one.now) (lowered other.now) }
{
    one.eq_ignore_ascii_case(other)
}

/// Whether two names of columns are one, where case is ignored: a name that is neither empty nor
/// blank.
#[tactic(auto, unfolding(crate::specs::Name::is_one_name))]
pub(crate) fn is_one_name(one: &[u8], other: &[u8]) -> bool
    ensures { result ≡ is_one_name one.now other.now }
{
    !are_spaces(one) && differ_in_case(one, other)
}

// Whether one of these names, which are marked, is that of a column.
fn has_twin(names: &[Title], marks: &Marks, name: &Title) -> bool
    requires { list_all (is_name_marked marks.now) names.now ≡ true }
    ensures { result ≡ list_any (λ other. are_one other name.now) names.now }
{
    if !name.may_be_in(marks) {
        return false;
    }
    names.iter().any(|other| other.is_one(name))
}

/// Whether two columns of these names have one. A name is compared with those before it only where
/// its number was marked by one of them.
#[tactic(auto, using(crate::proofs::NameLemmas::twin_steps))]
pub(crate) fn has_twins(names: &[Title]) -> bool
    ensures { result ≡ has_twins names.now }
{
    let mut marks = Marks::new();
    let mut found = false;
    for (i, name) in names.iter().enumerate() {
        let (before, _) = names.split_at(i);
        found = found | has_twin(before, &marks, name);
        name.mark(&mut marks);
    }
    found
}
