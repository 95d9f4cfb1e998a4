// What holds of declared names.
ghost use Rattle.std.specs.Prelude.{◌≡◌, List, Ok};
ghost use Rattle.cat_pos.specs.declared.pos.Piece.{Piece};
ghost use Rattle.cat_lex.specs.declared.token.Token.{Token};
ghost use Rattle.cat_lex.specs.Lexes.{Lexes};
ghost use Rattle.cat_tree.specs.declared.program.Tree.{Tree};
ghost use Rattle.cat_tree.specs.Programs.{SpellsProgram};
ghost use Rattle.cat_names.specs.Declarations.{Declared, declared_of};
ghost use Rattle.cat_laws.specs.Unbroken.{AreUnbroken};

/// The names of scopes and of items that pieces declare hold neither a line feed nor a hyphen.
#[tactic(auto, using(crate::proofs::DeclaredNames::unbroken))]
pub fn declared_names_are_unbroken()
    ensures { (pieces : List Piece) (tokens : List Token) (tree : Tree) (ds : Declared) → Lexes pieces tokens
        → SpellsProgram tree tokens → declared_of tree.items ≡ Ok ds → AreUnbroken ds.scopes }
{}
