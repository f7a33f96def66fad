//! The codes of a card, by its mark and by what stands round it.
ghost use Rattle.std.specs.Prelude.{◌≡◌, [], IsTrue};
ghost use Rattle.fits_codes.specs.Judged.{says_shape, is_not_fixed, has_mandatory_name, repeats_mandatory, repeats_keyword, is_stray, is_left_open, judged};

use crate::code::Code;
use crate::code_set::CodeSet;
use crate::context::Context;
use crate::fixed::is_fixed_as;
use crate::keywords::{COUNT, is_mandatory, is_one_of, mandatory_type};
use crate::mark::Mark;

// Whether the card says a number or a type of the shape.
fn says_shape(mark: &Mark, context: &Context) -> bool
    ensures { result ≡ says_shape mark.now context.now }
{
    context.place <= context.axes.saturating_add(3)
        || (!context.class.is_primary()
            && is_one_of(&COUNT, &mark.name)
            && mark.has_value
            && !context.around.value_before)
}

// Whether it says so without a value of its type in fixed format.
fn is_not_fixed(mark: &Mark, context: &Context) -> bool
    ensures { result ≡ is_not_fixed mark.now context.now }
{
    says_shape(mark, context)
        && !is_fixed_as(mandatory_type(context.class, context.place), mark.fixed)
}

// Whether the card has a mandatory keyword.
fn has_mandatory_name(mark: &Mark, context: &Context) -> bool
    ensures { result ≡ has_mandatory_name mark.now context.now }
{
    is_mandatory(context.class, context.axes, &mark.name)
}

// Whether it does, and an earlier card has the same name.
fn repeats_mandatory(mark: &Mark, context: &Context) -> bool
    ensures { result ≡ repeats_mandatory mark.now context.now }
{
    context.around.name_before && has_mandatory_name(mark, context)
}

// Whether it has another keyword and a value, where an earlier card had both.
fn repeats_keyword(mark: &Mark, context: &Context) -> bool
    ensures { result ≡ repeats_keyword mark.now context.now }
{
    context.around.value_before && mark.has_value && !has_mandatory_name(mark, context)
}

// Whether it is named CONTINUE, and continues no string.
fn is_stray(mark: &Mark, context: &Context) -> bool
    ensures { result ≡ is_stray mark.now context.now }
{
    mark.name.is(b"CONTINUE") && !context.around.is_link
}

// Whether it is a piece of a string that ends in an ampersand, and isn't continued.
fn is_left_open(mark: &Mark, context: &Context) -> bool
    ensures { result ≡ is_left_open mark.now context.now }
{
    (mark.begins || context.around.is_link) && mark.is_open && !context.next_is_link
}

// Whether it is as most cards are, of which nothing is found.
#[tactic(auto, using(crate::proofs::PlainLemmas::plain), unfolding(crate::specs::Judged::judged))]
fn is_plain(mark: &Mark, context: &Context) -> bool
    ensures { IsTrue result → judged mark.now context.now ≡ [] }
{
    mark.alone.is_empty()
        && !context.around.name_before
        && !context.around.value_before
        && !mark.is_open
        && !mark.name.is(b"CONTINUE")
        && !says_shape(mark, context)
}

/// The codes of a card: exactly those whose fact holds. It takes no memory.
pub fn judge(mark: &Mark, context: &Context) -> CodeSet
    ensures { result ≡ judged mark.now context.now }
{
    if is_plain(mark, context) {
        return CodeSet::new();
    }
    judge_each(mark, context)
}

// The same, fact by fact.
fn judge_each(mark: &Mark, context: &Context) -> CodeSet
    ensures { result ≡ judged mark.now context.now }
{
    let alone = &mark.alone;
    let mut found = CodeSet::new();
    found.push_where(Code::NotText, alone.contains(Code::NotText));
    found.push_where(Code::BadName, alone.contains(Code::BadName));
    found.push_where(Code::UnreadableValue, alone.contains(Code::UnreadableValue));
    found.push_where(Code::UndefinedValue, alone.contains(Code::UndefinedValue));
    found.push_where(Code::WrongType, alone.contains(Code::WrongType));
    found.push_where(Code::NotFixedFormat, is_not_fixed(mark, context));
    found.push_where(Code::MandatoryRepeated, repeats_mandatory(mark, context));
    found.push_where(Code::KeywordRepeated, repeats_keyword(mark, context));
    found.push_where(Code::StrayContinue, is_stray(mark, context));
    found.push_where(Code::AmpersandNotContinued, is_left_open(mark, context));
    found.push_where(
        Code::NoSpaceAfterEquals,
        alone.contains(Code::NoSpaceAfterEquals),
    );
    found.push_where(Code::BadDate, alone.contains(Code::BadDate));
    found.push_where(
        Code::DeprecatedKeyword,
        alone.contains(Code::DeprecatedKeyword),
    );
    found
}
