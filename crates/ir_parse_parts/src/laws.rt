//! The laws of forms and readers on two small grammars, as functions whose contracts state them.
//!
//! How readers are put together is a matter of any form, so those laws are lemmas of `proofs/`
//! that the crates above cite. A clause can speak of one grammar at a time: here of lists of
//! numbers, and of groups of brackets.

ghost use Rattle.std.specs.Prelude.{◌≡◌, ℕ, List, [], ◌∷◌, Result, Ok, Err, true, false};
ghost use Rattle.ir_parse_parts.specs.declared.fault.Fault.{Fault};
ghost use Rattle.ir_parse_parts.specs.declared.fault.TokenFault.TheVariants.{Syntax, Number, Limit};
ghost use Rattle.ir_parse_parts.specs.Faults.{StopsAt, FitsBound, FitsKind};
ghost use Rattle.ir_parse_parts.specs.Balanced.{Closing, closing_at, none_open};
ghost use Rattle.ir_parse_parts.specs.Groups.{opens, closes, plain, marks, numbered};
ghost use Rattle.ir_parse_parts.specs.Lawful.{Lawful};
ghost use Rattle.ir_parse_parts.specs.Listing.{Sign, opening, closing, comma, numeral, signs, not_here, listing, any_listing, listing_at, list_of};
ghost use Rattle.ir_parse_parts.specs.Rules.{Rule};

/// The reader of lists of numbers is tied to their grammar, whatever the bound and the limit.
pub fn listing_rule()
    ensures { (most room : ℕ) → Rule signs (listing most room) (any_listing most) (listing_at most room) (0 ∷ []) [] false }
{}

/// What is read is in the grammar, and what is in the grammar is read.
pub fn listing_is_read()
    ensures found { (most room : ℕ) (ts : List Sign) (ns : List ℕ) → list_of most room ts ≡ Ok ns → listing most room ts ns }
    ensures only { (most room : ℕ) (ts : List Sign) (ns : List ℕ) → listing most room ts ns → list_of most room ts ≡ Ok ns }
{}

/// A fault stands at the first token at which no reading goes on, which is one place. It is a number
/// out of range only where another number goes on there, and where one does it is that or a limit; it
/// is a limit only where a reading without the limit goes on, and where one does it is that or a number
/// out of range.
pub fn listing_faults()
    ensures stops { (most room : ℕ) (ts : List Sign) (e : Fault) → list_of most room ts ≡ Err e → StopsAt signs (listing most room) ts e.left }
    ensures place { (most room : ℕ) (ts : List Sign) (n m : ℕ) → StopsAt signs (listing most room) ts n → StopsAt signs (listing most room) ts m → n ≡ m }
    ensures kind { (most room : ℕ) (ts : List Sign) (e : Fault) → list_of most room ts ≡ Err e → FitsKind signs (listing most room) ts e.left e.kind }
    ensures limit { (most room : ℕ) (ts : List Sign) (e : Fault) → list_of most room ts ≡ Err e → FitsBound signs (any_listing most) ts e.left e.kind }
{}

/// The reader of balanced groups is tied to their form, whichever brackets are open: a closing
/// bracket of another kind is a fault at it, and nothing behind the last bracket is looked at.
pub fn groups()
    ensures lawful { (open_ones : List ℕ) → Lawful marks (Closing numbered open_ones) (Closing numbered open_ones) (closing_at numbered open_ones) (λ _. true) (λ _. false) (none_open open_ones) }
    ensures nested { closing_at numbered (1 ∷ []) (opens 2 ∷ plain ∷ closes 2 ∷ closes 1 ∷ closes 1 ∷ []) ≡ Ok (tt, closes 1 ∷ []) }
    ensures other { closing_at numbered (1 ∷ []) (opens 2 ∷ closes 1 ∷ closes 2 ∷ []) ≡ Err (record { left = 2; kind = Syntax }) }
    ensures end { closing_at numbered (1 ∷ []) (plain ∷ []) ≡ Err (record { left = 0; kind = Syntax }) }
{}

/// Lists of numbers up to 9, with one at most behind the first, worked out by hand.
pub fn listing_examples()
    ensures none { list_of 9 1 (opening ∷ closing ∷ []) ≡ Ok [] }
    ensures two { list_of 9 1 (opening ∷ numeral 3 ∷ comma ∷ numeral 9 ∷ closing ∷ []) ≡ Ok (3 ∷ 9 ∷ []) }
    ensures range { list_of 9 1 (opening ∷ numeral 3 ∷ comma ∷ numeral 10 ∷ closing ∷ []) ≡ Err (record { left = 2; kind = Number }) }
    ensures limit { list_of 9 1 (opening ∷ numeral 3 ∷ comma ∷ numeral 4 ∷ comma ∷ numeral 5 ∷ closing ∷ []) ≡ Err (record { left = 3; kind = Limit }) }
    ensures syntax { list_of 9 1 (opening ∷ numeral 3 ∷ numeral 4 ∷ []) ≡ Err (record { left = 1; kind = Syntax }) }
    ensures end { list_of 9 1 (opening ∷ numeral 3 ∷ []) ≡ Err (record { left = 0; kind = Syntax }) }
    ensures over { list_of 9 1 (opening ∷ closing ∷ comma ∷ []) ≡ Err (record { left = 1; kind = Syntax }) }
{}
