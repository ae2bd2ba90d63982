//! Laws of tokens, as functions whose contracts state them.

ghost use Rattle.std.specs.Prelude.{◌≡◌, ◌⊎◌, ◌+◌, ◌++◌, List, ℕ};
ghost use Rattle.ir_lex.specs.Tok.{Tok};
ghost use Rattle.ir_lex.specs.Lexing.{AreTokens, AreTokensBefore, Stands};
ghost use Rattle.ir_lex.specs.Order.{InOrder, feeds};
ghost use Rattle.ir_lex.specs.Pieces.{Piece, AreSpelled, bytes_of, tokens_of};

/// No text is two lists of tokens, nor a list of tokens and one that ends at a bad token, nor does
/// it have two first bad tokens.
pub fn one_list()
    ensures same { (bytes : List ℕ) (ts us : List Tok) → AreTokens bytes ts → AreTokens bytes us → ts ≡ us }
    ensures apart { (bytes : List ℕ) (ts us : List Tok) (line : ℕ) → AreTokens bytes ts → AreTokensBefore bytes us line → ⊥ }
    ensures place { (bytes : List ℕ) (ts us : List Tok) (line here : ℕ) → AreTokensBefore bytes ts line → AreTokensBefore bytes us here → (ts ≡ us) × (line ≡ here) }
{}

/// Every text has its tokens, or a first bad one.
pub fn every_text()
    ensures { (bytes : List ℕ) → ((ts : List Tok) × AreTokens bytes ts) ⊎ ((ts : List Tok) × (line : ℕ) × AreTokensBefore bytes ts line) }
{}

/// Each token is a slice of its text, behind the tokens before it, and its line is one more than
/// the number of line feeds before its first byte. So is the line of the text's end, and that of a
/// bad token.
pub fn slices()
    ensures order { (bytes : List ℕ) (ts : List Tok) (line : ℕ) (here : List ℕ) → Stands bytes ts line here → InOrder 0 bytes ts }
    ensures there { (bytes : List ℕ) (ts : List Tok) (line : ℕ) (here : List ℕ) → Stands bytes ts line here → (front : List ℕ) × (bytes ≡ front ++ here) × (line ≡ 1 + feeds front) }
{}

/// Text that is written as tokens with blanks between, of which each fits best before what
/// follows it, is read as these tokens.
pub fn written()
    ensures { (ps : List Piece) → AreSpelled ps → AreTokens (bytes_of ps) (tokens_of 1 ps) }
{}
