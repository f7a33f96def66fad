ghost use Rattle.std.specs.Prelude.{◌≡◌, ◌≤◌, ◌+◌, ℕ, List, Option, Some, None, length, IfSome, IfNone, IsSomeAnd};
ghost use Rattle.std.specs.Option.{ForSome, option_map};
ghost use Rattle.fits_card.specs.Card.{IsText};
ghost use Rattle.fits_value.specs.Field.{FieldReadsAs, ReadsAs, IsPlacedIn, part};
ghost use Rattle.fits_value.specs.Says.{read_said, card_says};
ghost use Rattle.fits_value.specs.Scan.{reading_of, value_span, moved_reading};
ghost use Rattle.fits_value.specs.declared.reading.ValueKind.{ValueKind};

use crate::reading::{Reading, Span, ValueKind};
use crate::scan_value::scan_value;
use crate::spaces::{spaces_len, trimmed_len};
use fits_card::Card;

// Where a value of this kind stands; no value stands nowhere.
fn span_of(kind: ValueKind, start: usize, len: usize) -> Span
    requires { start + len ≤ usize.MAX }
    ensures value { result ≡ value_span kind start len }
    ensures within { result.end ≤ start + len }
    ensures order { result.start ≤ result.end }
{
    match kind {
        ValueKind::Undefined => Span { start: 0, end: 0 },
        _ => Span {
            start,
            end: start + len,
        },
    }
}

// spaces [value] spaces [/ comment]
#[tactic(auto, unfolding(crate::specs::Scan::reading_of))]
fn scan_parts(text: &[u8]) -> Option<Reading>
    ensures value { result ≡ reading_of text.now }
    ensures within { IfSome result (λ reading. reading.value.end ≤ length text.now) }
{
    let start = spaces_len(text);
    let (_, body) = text.split_at(start);
    let (kind, size) = scan_value(body)?;
    let (_, rest) = body.split_at(size);
    let gap = spaces_len(rest);
    let (_, ending) = rest.split_at(gap);
    let value = span_of(kind, start, size);
    match ending {
        [] => Some(Reading {
            kind,
            value,
            comment: None,
        }),
        [b'/', comment @ ..] => {
            let from = start + size + gap + 1;
            let to = from + trimmed_len(comment);
            Some(Reading {
                kind,
                value,
                comment: Some(Span {
                    start: from,
                    end: to,
                }),
            })
        }
        _ => None,
    }
}

/// What a text of any length says.
pub(crate) fn scan_field(text: &[u8]) -> Option<Reading>
    requires { IsText text.now }
    ensures found { IfSome result (λ reading. FieldReadsAs text.now reading.kind
        (part text.now reading.value) (option_map (part text.now) reading.comment)) }
    ensures only { (kind : ValueKind) (spelling : List ℕ) (comment : Option (List ℕ))
        → FieldReadsAs text.now kind spelling comment
        → IsSomeAnd result (λ reading. (reading.kind ≡ kind)
        × (part text.now reading.value ≡ spelling)
        × (option_map (part text.now) reading.comment ≡ comment)) }
    ensures placed { IfSome result (IsPlacedIn text.now 0) }
{
    scan_parts(text)
}

// The same reading in a text with ten bytes more at its front.
fn moved(reading: Reading) -> Reading
    requires value_order { reading.value.start ≤ reading.value.end }
    requires value_within { reading.value.end ≤ 70 }
    requires comment_order { ForSome reading.comment (λ span. span.start ≤ span.end) }
    requires comment_within { ForSome reading.comment (λ span. span.end ≤ 70) }
    ensures { result ≡ moved_reading reading }
{
    let value = Span {
        start: 10 + reading.value.start,
        end: 10 + reading.value.end,
    };
    let comment = match reading.comment {
        Some(span) => Some(Span {
            start: 10 + span.start,
            end: 10 + span.end,
        }),
        None => None,
    };
    Reading {
        kind: reading.kind,
        value,
        comment,
    }
}

/// What a card's bytes 11 to 80 say, by places in the card. It takes no memory.
pub fn scan_card(card: &Card) -> Option<Reading>
    // What is read is said so, and nothing else is.
    ensures found { IfSome result (λ reading. ReadsAs card.now reading.kind
        (part card.now reading.value) (option_map (part card.now) reading.comment)) }
    ensures only { (kind : ValueKind) (spelling : List ℕ) (comment : Option (List ℕ))
        → ReadsAs card.now kind spelling comment
        → IsSomeAnd result (λ reading. (reading.kind ≡ kind)
        × (part card.now reading.value ≡ spelling)
        × (option_map (part card.now) reading.comment ≡ comment)) }

    // The same as a function: the value that the kind and the bytes spell.
    ensures said { IfSome result (λ reading.
        card_says card.now ≡ read_said card.now (Some reading)) }
    ensures none { IfNone result (card_says card.now ≡ None) }

    // The spans are those of the value and the comment, and not of the same bytes elsewhere.
    ensures placed { IfSome result (IsPlacedIn card.now 10) }
{
    if !card.is_text() {
        return None;
    }
    let (_, field) = card.bytes().split_at(10);
    let Some(reading) = scan_field(field) else {
        return None;
    };
    Some(moved(reading))
}
