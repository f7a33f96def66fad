//! Laws of written cards, each the contract of a function that does nothing.
ghost use Rattle.std.specs.Prelude.{◌≡◌, ◌≤◌, ◌<◌, ◌↔◌, ℕ, nat_le, false, List, [], ◌∷◌, ◌++◌, length, take, drop, codes, IsTrue, All, Option, None, Some};
ghost use Rattle.fits_card.specs.Name.{is_settable};
ghost use Rattle.fits_card.specs.Header.{IsInnerCard};
ghost use Rattle.fits_value.specs.Spelling.{doubled};
ghost use Rattle.fits_value.specs.LongString.{cards_from};
ghost use Rattle.fits_laws.specs.LongStrings.{LongSays};
ghost use Rattle.fits_value.specs.Says.{long_says};
ghost use Rattle.fits_value.specs.Unwritable.{value_end, comment_room};
ghost use Rattle.fits_value.specs.Written.{fitting, quoted, card_of, continue_lead, cards_of_string, cards_of, all_fit, IsWritable, is_writable, write_says};
ghost use Rattle.fits_value.specs.declared.strings.TheConstants.{MOST_CHARACTERS};
ghost use Rattle.fits_value.specs.declared.value.Value.{Value};

/// Which values and comments can be written, as a function.
pub fn what_can_be_written()
    ensures { (name : List ℕ) (value : Value) (comment : Option (List ℕ))
        → IsTrue (is_writable name value comment) ↔ IsWritable name value comment }
{}

/// Written cards say the value and the comment at the place where they stand, whatever follows.
pub fn written_cards_read_back()
    ensures said { (cards written rest : List (List ℕ)) (place : ℕ) (name : List ℕ) (value : Value)
        (comment : Option (List ℕ)) → length name ≡ 8 → IsTrue (is_settable name)
        → write_says name value comment ≡ Some written → cards_from cards place ≡ written ++ rest
        → long_says cards place ≡ Some (value, comment) }
    ensures told { (cards written rest : List (List ℕ)) (place : ℕ) (name : List ℕ) (value : Value)
        (comment : Option (List ℕ)) → length name ≡ 8 → IsTrue (is_settable name)
        → write_says name value comment ≡ Some written → cards_from cards place ≡ written ++ rest
        → LongSays cards place value comment }
{}

/// Written cards have 80 bytes each, and none ends a header.
pub fn written_cards_are_inner()
    ensures { (written : List (List ℕ)) (name : List ℕ) (value : Value) (comment : Option (List ℕ))
        → length name ≡ 8 → IsTrue (is_settable name) → write_says name value comment ≡ Some written
        → All IsInnerCard written }
{}

/// A piece of a string has as many characters as so many bytes hold, and no more.
pub fn pieces_are_longest()
    ensures within { (room : ℕ) (text : List ℕ)
        → length (doubled (take (fitting room text) text)) ≤ room }
    ensures longest { (room : ℕ) (text : List ℕ) (k : ℕ) → fitting room text < k → k ≤ length text
        → room < length (doubled (take k text)) }
{}

/// A string that 68 bytes hold takes one card; a longer one goes on after its first piece.
pub fn strings_go_over_cards()
    ensures last { (lead text : List ℕ) (comment : Option (List ℕ))
        → length (doubled text) ≤ MOST_CHARACTERS
        → cards_of_string lead (length text) text comment
        ≡ card_of lead (quoted text) comment ∷ [] }
    ensures more { (lead text : List ℕ) (comment : Option (List ℕ))
        → MOST_CHARACTERS < length (doubled text)
        → cards_of_string lead (length text) text comment
        ≡ card_of lead (quoted (take (fitting 67 text) text ++ codes "&")) None
        ∷ cards_of_string continue_lead (length (drop (fitting 67 text) text))
        (drop (fitting 67 text) text) comment }
{}

/// Which comments fit beside a value: those with no more bytes than it leaves room for.
pub fn comments_fit_their_room()
    ensures room { (name comment : List ℕ) (value : Value) → length name ≡ 8
        → value_end value ≤ 78 → all_fit (cards_of name value (Some comment))
        ≡ nat_le (length comment) (comment_room (value_end value)) }
    ensures none { (name comment : List ℕ) (value : Value) → length name ≡ 8
        → 78 < value_end value → all_fit (cards_of name value (Some comment)) ≡ false }
    ensures alone { (name : List ℕ) (value : Value) → length name ≡ 8
        → all_fit (cards_of name value None) ≡ nat_le (value_end value) 80 }
{}
