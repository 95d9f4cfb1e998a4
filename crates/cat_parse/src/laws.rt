// What holds of programs and of the reader of expressions.
ghost use Rattle.std.specs.Prelude.{ℕ, ◌≡◌, List};
ghost use Rattle.cat_lex.specs.declared.token.Token.{Token};
ghost use Rattle.cat_tree.specs.declared.expression.Node.{Node};
ghost use Rattle.cat_tree.specs.declared.program.Tree.{Tree};
ghost use Rattle.cat_tree.specs.Programs.{SpellsProgram};
ghost use Rattle.cat_parse.specs.Causes.{IsUnexpected};
ghost use Rattle.cat_parse.specs.Ends.{EndsBefore};
ghost use Rattle.cat_parse.specs.Exactly.{ReadsExpressions, Exactly};
ghost use Rattle.cat_parse.specs.Expression.{expression};
ghost use Rattle.cat_parse.specs.Programs.{program};
ghost use Rattle.cat_parse_expr.specs.Reader.{Reader};

/// Over a right reader of expressions, programs are read exactly: a program is read where one with low expressions is
/// spelled, and it is the only one; a refusal stands where the tokens go on with no program, or with none so low.
pub fn programs_are_read_exactly()
    ensures { (ex : Reader Node) → ReadsExpressions ex → (tokens : List Token) → Exactly tokens (program ex tokens) }
{}

/// The reader of expressions is right before the words that may follow one in a program.
pub fn expressions_are_read_rightly()
    ensures { ReadsExpressions expression }
{}

/// No token that may follow an expression in a program goes on with an expression that ends there.
pub fn no_expression_goes_on()
    ensures { (e : Node) (front : List Token) (p : Token) → EndsBefore e front p }
{}

/// A list of tokens spells at most one program, of any height.
pub fn tokens_spell_one_program()
    ensures { (t u : Tree) (tokens : List Token) → SpellsProgram t tokens → SpellsProgram u tokens → t ≡ u }
{}

/// A list of tokens has at most one place that is unexpected.
pub fn a_refusal_has_one_place()
    ensures { (tokens : List Token) (a b : ℕ) → IsUnexpected tokens a → IsUnexpected tokens b → a ≡ b }
{}
