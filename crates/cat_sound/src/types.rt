// Which types typed expressions have.
ghost use Rattle.std.specs.Prelude.{◌≡◌, ℕ, IsTrue, List, Option, Some, false};
ghost use Rattle.cat_value.specs.declared.ty.Ty.{Ty};
ghost use Rattle.cat_value.specs.declared.ty.Ty.TheViews.{List as list_of};
ghost use Rattle.cat_value.specs.Entries.{content_of};
ghost use Rattle.cat_scope.specs.declared.expr.Expr.{Expr};
ghost use Rattle.cat_scope.specs.Names.{AllHave, Names};
ghost use Rattle.cat_scope.specs.HasType.{HasType};
ghost use Rattle.cat_scope.specs.Expected.{lists_placed};
ghost use Rattle.cat_scope.specs.Naming.{IsTargetAt};
ghost use Rattle.cat_sound.specs.LowTypes.{IsLow, names_at};

use cat_value::{Decls, declarations_are_sound};

/// A typed expression has one type, where its `[]` stand where a type is expected and none is expected of the whole.
#[tactic(auto, using(crate::proofs::OneType::one_type_alone))]
pub fn typed_expressions_have_one_type()
    ensures { (ns : Names) (ls : List Ty) (e : Expr) (t : Ty) (u : Ty)
        → HasType ns ls e t → HasType ns ls e u → IsTrue (lists_placed e false) → t ≡ u }
{}

/// No expression has a type higher than 64, or one that is not declared: a local name is a parameter of a target, an
/// element of a list, the content of a case or what was combined before, and so no other is bound.
pub fn typed_expressions_have_low_types(decls: &Decls)
    ensures expressions { (scope : ℕ) (ls : List Ty) (e : Expr) (t : Ty) → AllHave (IsLow decls.now) ls
        → HasType (names_at decls.now scope) ls e t → IsLow decls.now t }
    ensures targets { (scope : ℕ) (item : ℕ) (inner : Option ℕ) (params : List Ty) (t : Ty)
        → IsTargetAt (names_at decls.now scope) item inner params t → IsLow decls.now t }
    ensures params { (scope : ℕ) (item : ℕ) (inner : Option ℕ) (params : List Ty) (t : Ty)
        → IsTargetAt (names_at decls.now scope) item inner params t → AllHave (IsLow decls.now) params }
    ensures elements { (t : Ty) → IsLow decls.now (list_of t) → IsLow decls.now t }
    ensures contents { (n : ℕ) (k : ℕ) (t : Ty) → content_of decls.now n k ≡ Some (Some t) → IsLow decls.now t }
{
    declarations_are_sound(decls);
}
