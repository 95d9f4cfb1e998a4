//! Laws of tokens: each is the contract of a function.
ghost use Rattle.std.specs.Prelude.{◌≡◌, ◌≢◌, ℕ, ◌+◌, ◌<◌, List, ◌++◌, drop, length};
ghost use Rattle.cat_pos.specs.declared.limits.TheConstants.{MOST_FILES};
ghost use Rattle.cat_pos.specs.Position.{position_of};
ghost use Rattle.cat_pos.specs.declared.pos.Piece.{Piece};
ghost use Rattle.cat_lex.specs.declared.refusal.LexRefusal.{LexRefusal};
ghost use Rattle.cat_lex.specs.declared.token.Token.{Token};
ghost use Rattle.cat_lex.specs.Lexes.{Lexes, HasCause};
ghost use Rattle.cat_lex.specs.Positions.{position_after};

/// Pieces have at most one list of tokens.
pub fn pieces_have_one_reading()
    ensures { (pieces : List Piece) (tokens others : List Token) → Lexes pieces tokens → Lexes pieces others
        → tokens ≡ others }
{}

/// Pieces that are refused for another reason than memory are no tokens.
pub fn refused_pieces_have_no_reading()
    ensures { (pieces : List Piece) (refusal : LexRefusal) (tokens : List Token) → refusal ≢ LexRefusal.Memory
        → HasCause pieces refusal → Lexes pieces tokens → ⊥ }
{}

/// Where a piece has the position of its offset in a file, so has what follows a front of it.
pub fn positions_are_those_of_the_file()
    ensures { (text : List ℕ) (file offset : ℕ) (front rest : List ℕ) → file < MOST_FILES
        → drop offset text ≡ front ++ rest
        → position_after (position_of text file offset) front ≡ position_of text file (offset + length front) }
{}
