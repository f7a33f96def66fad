//! Laws of the definitions, each the contract of a function that does nothing.
ghost use Rattle.std.specs.Prelude.{◌≡◌, ◌&&◌, ℕ, List, IsTrue};
ghost use Rattle.fits_codes.specs.Alone.{has_alone, alone_codes};
ghost use Rattle.fits_codes.specs.Code.{is_among};
ghost use Rattle.fits_codes.specs.HeaderCodes.{has_header_code, header_codes, header_judged};
ghost use Rattle.fits_codes.specs.Judged.{has_code, card_codes, judged};
ghost use Rattle.fits_codes.specs.Mark.{mark_of};
ghost use Rattle.fits_codes.specs.declared.code.Code.{Code};
ghost use Rattle.fits_codes.specs.declared.context.Context.{Context};
ghost use Rattle.fits_codes.specs.declared.header_mark.HeaderMark.{HeaderMark};
ghost use Rattle.fits_codes.specs.declared.mark.Mark.{Mark};
ghost use Rattle.fits_rules.specs.declared.array_shape.Shape.{Shape};

/// A card is judged to have exactly the codes whose facts hold of it.
#[tactic(auto, using(crate::proofs::LawLemmas::laws))]
pub fn each_code_of_a_card_is_found()
    ensures { (mark : Mark) (context : Context) (code : Code)
        → is_among (judged mark context) code ≡
        (is_among card_codes code && has_code mark context code) }
{}

/// What a card has alone is found whatever stands round it.
#[tactic(auto, using(crate::proofs::LawLemmas::laws))]
pub fn each_code_of_a_card_alone_is_found()
    ensures { (card : List ℕ) (context : Context) (code : Code)
        → IsTrue (is_among alone_codes code)
        → has_code (mark_of card) context code ≡ has_alone card code }
{}

/// A header is judged to have exactly the codes whose facts hold of it.
#[tactic(auto, using(crate::proofs::LawLemmas::laws))]
pub fn each_code_of_a_header_is_found()
    ensures { (mark : HeaderMark) (shape : Shape) (code : Code)
        → is_among (header_judged mark shape) code ≡
        (is_among header_codes code && has_header_code mark shape code) }
{}
