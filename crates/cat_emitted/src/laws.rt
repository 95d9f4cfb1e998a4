// Laws of the listings of accepted sources: each is the contract of a function.
ghost use Rattle.std.specs.Prelude.{◌≡◌, ◌<◌, ℕ, IsTrue, List, length};
ghost use Rattle.cat_pos.specs.Position.{pos_file};
ghost use Rattle.cat_pos.specs.declared.pos.Piece.{Piece};
ghost use Rattle.cat_value.specs.declared.decls.Decls.{Decls};
ghost use Rattle.cat_weave.specs.declared.source.Source.{Source};
ghost use Rattle.cat_weave.specs.Gathered.{Contents, Whole, gathered};
ghost use Rattle.cat_lex.specs.declared.token.Token.{Token};
ghost use Rattle.cat_lex.specs.Lexes.{Lexes};
ghost use Rattle.cat_tree.specs.declared.program.Tree.{Tree};
ghost use Rattle.cat_tree.specs.Programs.{SpellsLowProgram};
ghost use Rattle.cat_names.specs.Accepted.{IsNamed, parts_of};
ghost use Rattle.cat_code.specs.declared.code.Tables.{Tables};
ghost use Rattle.cat_code.specs.declared.instr.Instr.{Instr};
ghost use Rattle.cat_code.specs.Valid.{IsValid};
ghost use Rattle.cat_build.specs.declared.Built.{Built};
ghost use Rattle.cat_build.specs.Built.{IsBuiltOf};
ghost use Rattle.cat_image.specs.Words.{Text};
ghost use Rattle.cat_image.specs.Listed.{is_line};
ghost use Rattle.cat_emitted.specs.Spelled.{AreSpelledDecls};
ghost use Rattle.cat_emitted.specs.Emitted.{AllAt, AreFileNames, AreSmall, AreSpelledTables, IsSmallCode, IsWellListed};

/// No two files of a source have one name, and each name is a line where the main file's is one.
pub fn files_of_sources_are_named()
    ensures { (contents : Contents) (main : List ℕ) (source : Source) → IsTrue (is_line main)
        → gathered contents main ≡ Whole source → AreFileNames source.files }
{}

/// What the tree declares that the tokens of pieces spell has names that are words, none of them twice, and keeps the
/// counts, where no name of it is at fault.
pub fn declarations_of_sources_are_spelled()
    ensures { (pieces : List Piece) (tokens : List Token) (tree : Tree) (decls : Decls) → Lexes pieces tokens
        → SpellsLowProgram tree tokens → IsNamed tree (parts_of decls) → AreSpelledDecls decls }
{}

/// Each position in the code that a gathered source is built into is in one of the source's files.
pub fn positions_of_code_are_of_files()
    ensures { (contents : Contents) (main : List ℕ) (source : Source) (built : Built)
        → gathered contents main ≡ Whole source → IsBuiltOf source.pieces built
        → AllAt (λ p. pos_file p < length source.files) built.code.tables }
{}

/// What is listed of valid code with such declarations makes an image, whose words tell its tables, and no line of
/// which is bad.
pub fn spelled_tables_are_well_listed()
    ensures { (files : List Text) (tables : Tables) (instructions : List Instr) → ∥ IsValid tables instructions ∥₁
        → AreSpelledTables files tables → AreSmall instructions → IsWellListed files tables instructions }
{}

/// So is what is listed of the code that a gathered source is built into, under the names of the source's files, where
/// the source has a scope.
pub fn built_code_is_well_listed()
    ensures { (contents : Contents) (main : List ℕ) (source : Source) (built : Built) → IsTrue (is_line main)
        → gathered contents main ≡ Whole source → IsBuiltOf source.pieces built
        → 0 < length built.program.decls.scopes → IsSmallCode built.code
        → IsWellListed source.files built.code.tables built.code.instructions }
{}
