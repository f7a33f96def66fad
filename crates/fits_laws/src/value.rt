//! Laws of the definitions, each the contract of a function that does nothing.
ghost use Rattle.std.specs.Prelude.{◌≡◌, ◌↔◌, ◌≤◌, ◌<◌, IsTrue, Bool, ◌+◌, ℕ, ℤ, List, length, Option, Some};
ghost use Rattle.fits_value.specs.Field.{FieldReadsAs, ReadsAs};
ghost use Rattle.fits_value.specs.Number.{IsIntegerOf, IsDecimal, IsInteger, IsNumber, Denotes};
ghost use Rattle.fits_value.specs.Value.{FieldSays, CardSays};
ghost use Rattle.fits_laws.specs.LongStrings.{Piece, IsChain, BeginsChain, IsContinueCard, LongSays};
ghost use Rattle.fits_value.specs.Says.{field_says, card_says, long_says, integer_in, says_number, card_string, link_string, chain_length, IsLink};
ghost use Rattle.fits_value.specs.declared.value.Value.{Value};
ghost use Rattle.fits_value.specs.declared.value.Value.TheVariants.{Str};
ghost use Rattle.fits_value.specs.declared.reading.ValueKind.{ValueKind};

/// A text has one reading at most.
pub fn one_field_reading()
    ensures { (text : List ℕ) (k j : ValueKind) (s t : List ℕ) (c d : Option (List ℕ))
        → FieldReadsAs text k s c → FieldReadsAs text j t d → (k ≡ j) × (s ≡ t) × (c ≡ d) }
{}

/// A card has one reading at most.
pub fn one_card_reading()
    ensures { (card : List ℕ) (k j : ValueKind) (s t : List ℕ) (c d : Option (List ℕ))
        → ReadsAs card k s c → ReadsAs card j t d → (k ≡ j) × (s ≡ t) × (c ≡ d) }
{}

/// A text says one value and comment at most.
pub fn one_field_value()
    ensures { (text : List ℕ) (v w : Value) (c d : Option (List ℕ))
        → FieldSays text v c → FieldSays text w d → (v ≡ w) × (c ≡ d) }
{}

/// A card says one value and comment at most.
pub fn one_card_value()
    ensures { (card : List ℕ) (v w : Value) (c d : Option (List ℕ))
        → CardSays card v c → CardSays card w d → (v ≡ w) × (c ≡ d) }
{}

/// One chain begins at a place at most.
pub fn one_chain()
    ensures { (cards : List (List ℕ)) (place : ℕ) (f g : List Piece) (l m : Piece)
        → IsChain cards place f l → IsChain cards place g m → (f ≡ g) × (l ≡ m) }
{}

/// A place says one value and comment at most, its chain's or its card's.
pub fn one_long_value()
    ensures { (cards : List (List ℕ)) (place : ℕ) (v w : Value) (c d : Option (List ℕ))
        → LongSays cards place v c → LongSays cards place w d → (v ≡ w) × (c ≡ d) }
{}

/// A text denotes one number at most.
pub fn one_number()
    ensures { (text : List ℕ) (m n : ℤ) → Denotes text m → Denotes text n → m ≡ n }
{}

/// Only an integer or a real denotes a number.
pub fn numbers_are_spelled()
    ensures { (text : List ℕ) (n : ℤ) → Denotes text n → IsNumber text }
{}

/// Each decimal is an integer or a real, and each of these is a decimal.
pub fn each_number_is_a_decimal()
    ensures only { (text : List ℕ) (negative : Bool) (front back : List ℕ) (power : ℤ)
        → IsDecimal text negative front back power → IsNumber text }
    ensures each { (text : List ℕ) → IsNumber text
        → (negative : Bool) × (front : List ℕ) × (back : List ℕ) × (power : ℤ)
        × IsDecimal text negative front back power }
{}

/// Each integer has a number.
#[tactic(auto, using(fits_value::proofs::NumberLemmas::integer_has_number))]
pub fn integers_have_numbers()
    ensures { (text : List ℕ) → IsInteger text → (n : ℤ) × IsIntegerOf text n }
{}

/// An integer denotes its number.
#[tactic(auto, using(fits_value::proofs::NumberLemmas::integer_denotes))]
pub fn integers_denote()
    ensures { (text : List ℕ) (n : ℤ) → IsIntegerOf text n → Denotes text n }
{}

/// What a text says, as a function: exactly the value and the comment.
pub fn what_a_field_says()
    ensures said { (text : List ℕ) (v : Value) (c : Option (List ℕ))
        → FieldSays text v c → field_says text ≡ Some (v, c) }
    ensures only { (text : List ℕ) (v : Value) (c : Option (List ℕ))
        → field_says text ≡ Some (v, c) → FieldSays text v c }
{}

/// What a card says, as a function.
pub fn what_a_card_says()
    ensures said { (card : List ℕ) (v : Value) (c : Option (List ℕ))
        → CardSays card v c → card_says card ≡ Some (v, c) }
    ensures only { (card : List ℕ) (v : Value) (c : Option (List ℕ))
        → card_says card ≡ Some (v, c) → CardSays card v c }
{}

/// What a place says, as a function. Places count from 1.
pub fn what_a_place_says()
    ensures said { (cards : List (List ℕ)) (place : ℕ) (v : Value) (c : Option (List ℕ))
        → 1 ≤ place → LongSays cards place v c → long_says cards place ≡ Some (v, c) }
    ensures only { (cards : List (List ℕ)) (place : ℕ) (v : Value) (c : Option (List ℕ))
        → 1 ≤ place → long_says cards place ≡ Some (v, c) → LongSays cards place v c }
{}

/// The string that a card says, as a function.
pub fn which_string_a_card_says()
    ensures said { (card text : List ℕ) (c : Option (List ℕ))
        → CardSays card (Str text) c → card_string card ≡ Some text }
    ensures only { (card text : List ℕ)
        → card_string card ≡ Some text → (c : Option (List ℕ)) × CardSays card (Str text) c }
{}

/// The string of a proper CONTINUE card, as a function.
pub fn which_string_a_link_says()
    ensures said { (card : List ℕ) → (h : IsContinueCard card) → link_string card ≡ Some h.text }
    ensures only { (card text : List ℕ) → link_string card ≡ Some text
        → IsContinueCard card × ((c : Option (List ℕ)) × CardSays card (Str text) c) }
{}

/// How many cards a chain has, as a function.
pub fn how_long_a_chain_is()
    ensures chain { (cards : List (List ℕ)) (place : ℕ) (front : List Piece) (last : Piece)
        → IsChain cards place front last → chain_length cards place ≡ length front + 1 }
    ensures none { (cards : List (List ℕ)) (place : ℕ)
        → (BeginsChain cards place → ⊥) → chain_length cards place ≡ 0 }
{}

/// A card is a link exactly where it stands in a chain after its first card. Places count from 1.
pub fn which_cards_are_links()
    ensures said { (cards : List (List ℕ)) (first place : ℕ) (front : List Piece) (last : Piece)
        → IsChain cards first front last → 1 ≤ first → first < place
        → place ≤ first + length front → IsLink cards place }
    ensures only { (cards : List (List ℕ)) (place : ℕ) → (h : IsLink cards place)
        → (front : List Piece) × (last : Piece)
        × IsChain cards h.first front last × (place ≤ h.first + length front) }
{}

/// Which number an integer has, as a function.
pub fn which_integer()
    ensures said { (text : List ℕ) (n : ℤ) → IsIntegerOf text n → integer_in text ≡ Some n }
    ensures only { (text : List ℕ) (n : ℤ) → integer_in text ≡ Some n → IsIntegerOf text n }
{}

/// Which numbers a text denotes, as a function.
pub fn which_numbers_are_denoted()
    ensures { (text : List ℕ) (n : ℤ) → IsTrue (says_number text n) ↔ Denotes text n }
{}
