// What holds of what a tree means: each law is the contract of a function.
ghost use Rattle.std.specs.Prelude.{◌≡◌, ◌≤◌, ℕ, List, length, map, Option, Some, Ok};
ghost use Rattle.cat_pos.specs.declared.pos.Pos.{Pos};
ghost use Rattle.cat_value.specs.declared.decls.Decls.{Decls};
ghost use Rattle.cat_value.specs.declared.ty.Ty.{Ty};
ghost use Rattle.cat_tree.specs.declared.expression.Node.{Node};
ghost use Rattle.cat_tree.specs.declared.program.Tree.{Tree};
ghost use Rattle.cat_scope.specs.declared.defs.Body.{Body};
ghost use Rattle.cat_scope.specs.declared.operators.BinaryOp.{BinaryOp};
ghost use Rattle.cat_scope.specs.declared.operators.UnaryOp.{UnaryOp};
ghost use Rattle.cat_scope.specs.declared.operators.SumKind.{SumKind};
ghost use Rattle.cat_scope.specs.Mentions.{scopes_named};
ghost use Rattle.cat_scope.specs.Names.{AllHave, IsOneOf, Names};
ghost use Rattle.cat_scope.specs.Signatures.{signatures_of, summed_type, compared_types};
ghost use Rattle.cat_scope.specs.WellFormed.{IsWellFormed};
ghost use Rattle.cat_names.specs.declared.typed.Local.{Local};
ghost use Rattle.cat_names.specs.Meaning.{meant};
ghost use Rattle.cat_names.specs.declared.typed.Typed.{Typed};
ghost use Rattle.cat_names.specs.declared.fault.Fault.{Fault};
ghost use Rattle.cat_names.specs.declared.fault.Fault.TheVariants.{NameUnknown};
ghost use Rattle.cat_names.specs.Found.{Stands};
ghost use Rattle.cat_names.specs.Unknown.{unknown_in};
ghost use Rattle.cat_names.specs.TypedNames.{known_of, typed_names_in};
ghost use Rattle.cat_names.specs.Bodies.{bodies_meant};
ghost use Rattle.cat_names.specs.Rows.{sum_for};
ghost use Rattle.cat_names.specs.Symbols.{StandsBetween, StandsBefore, IsFlat};
ghost use Rattle.cat_names.specs.Accepted.{IsMeant, IsNamed, IsParsed, IsProgramOf, IsRefused, parts_of};
ghost use Rattle.cat_names.specs.declared.limits.TheConstants.{MOST_CASES, MOST_DEFINITIONS};
ghost use Rattle.cat_names.specs.declared.limits.TheConstants.{MOST_ITEMS, MOST_PARAMETERS};
ghost use Rattle.cat_names.specs.Limits.{most_definitions, most_items, most_parameters};
ghost use Rattle.cat_value.specs.Declarations.{most_cases};
ghost use Rattle.cat_names.specs.Decided.{IsDecided};
ghost use Rattle.cat_names.specs.ScopeWords.{scope_words, AreWordsOf};
ghost use Rattle.cat_names.specs.Naming.{names_in_scope};
ghost use Rattle.cat_names.specs.TypedMeanings.{OnFound, AreDeclared, IsExpected, IsTyped};

use cat_order::{a_cycle_leaves_no_order, the_order_is_computed, the_order_is_one};
use cat_value::{Decls, declarations_are_sound};

/// What an expression means, in any scope, under bound names of declared types, has the type that is told: a declared
/// one, and the expected one where one is expected; and each `[]` in it stands where a type is expected.
pub fn meanings_have_their_types(decls: &Decls)
    ensures { (scope : ℕ) (e : Node) (locals : List Local) (expected : Option Ty) → AreDeclared decls.now locals
        → IsExpected decls.now expected
        → OnFound (IsTyped (names_in_scope decls.now scope) locals expected)
        (meant (names_in_scope decls.now scope) e locals expected) }
{
    declarations_are_sound(decls);
}

/// Each operator is written by its symbol: between operands of the types of each of its signatures, or before one of
/// the type that it takes, the symbol stands for that operator. Each sum adds up what its kind says, and each type with
/// an equality is one that `contains` looks for.
pub fn symbols_stand_for_each_operator()
    ensures operators { (o : BinaryOp) → AllHave (StandsBetween o) (signatures_of o) }
    ensures prefixes { (o : UnaryOp) → StandsBefore o }
    ensures sums { (kind : SumKind) → sum_for (summed_type kind) ≡ Some kind }
    ensures contained { AllHave IsFlat compared_types }
{}

/// The program of a tree is well typed, and its orders and chains are those that a program keeps.
pub fn programs_of_trees_are_well_formed(decls: &Decls)
    ensures { (tree : Tree) (bodies : List Body) (scope_order : List ℕ)
        → IsProgramOf tree decls.now bodies scope_order → IsWellFormed decls.now bodies scope_order }
{
    declarations_are_sound(decls);
}

/// A tree that has a program is not refused: so it is refused only where it has none.
pub fn refused_trees_have_no_program()
    ensures { (tree : Tree) (decls : Decls) (bodies : List Body) (scope_order : List ℕ) (fault : Fault)
        → IsProgramOf tree decls bodies scope_order → ¬ IsRefused tree fault }
{
    the_order_is_computed();
    a_cycle_leaves_no_order();
}

/// A tree has at most one program.
pub fn trees_have_one_program()
    ensures { (tree : Tree) (decls other : Decls) (bodies more : List Body) (scope_order order : List ℕ)
        → IsProgramOf tree decls bodies scope_order → IsProgramOf tree other more order
        → (decls ≡ other) × (bodies ≡ more) × (scope_order ≡ order) }
{
    the_order_is_one();
}

/// The limits by which code counts are those of the definitions.
pub fn limits_are_as_stated()
    ensures items { MOST_ITEMS ≡ most_items }
    ensures definitions { MOST_DEFINITIONS ≡ most_definitions }
    ensures cases { MOST_CASES ≡ most_cases }
    ensures parameters { MOST_PARAMETERS ≡ most_parameters }
{}

/// A scope of a tree has no more definitions than a tree may have in all.
pub fn definitions_are_counted()
    ensures { (tree : Tree) (decls : Decls) (bodies : List Body) → IsMeant tree decls bodies
        → AllHave (λ body. length body.defs ≤ most_definitions) bodies }
{}

/// An enumeration of a tree has no more cases than one may have.
pub fn cases_are_counted()
    ensures { (tree : Tree) (decls : Decls) (bodies : List Body) → IsMeant tree decls bodies
        → AllHave (λ e. length e.cases ≤ most_cases) decls.enumerations }
{}

/// The walk that looks for unknown names and the one that resolves expressions bind the same names. Where no name of a
/// tree is at fault, an unknown name in what it says of its scopes is one that needs a type; and an expression that has
/// a meaning has no unknown name.
pub fn unknown_names_are_those_of_both_walks()
    ensures trees { (tree : Tree) (decls : Decls) (p : Pos) → IsNamed tree (parts_of decls)
        → Stands (NameUnknown p) (bodies_meant decls tree) → IsOneOf p (typed_names_in tree) }
    ensures expressions { (names : Names) (e : Node) (locals : List Local) (expected : Option Ty) (x : Typed) (p : Pos)
        → meant names e locals expected ≡ Ok x
        → ¬ IsOneOf (NameUnknown p) (unknown_in (known_of names) e (map (λ l. l.name) locals)) }
{}

/// Each tree that was read has a program, or a fault stands against it.
pub fn each_tree_is_accepted_or_refused()
    ensures { (tree : Tree) → IsParsed tree → IsDecided tree }
{
    a_cycle_leaves_no_order();
}

/// Each scope that a meaning calls is named by the word of a scope call in the expression.
pub fn scope_calls_are_written()
    ensures { (names : Names) (e : Node) (locals : List Local) (expected : Option Ty)
        → OnFound (λ x. AreWordsOf names.decls (scope_words e) (scopes_named x.expr))
        (meant names e locals expected) }
{}
