// What certificates say of programs: each law is the contract of a function.
ghost use Rattle.std.specs.Prelude.{◌≡◌, ◌<◌, ◌^◌, ℕ, List, Some, length};
ghost use Rattle.cat_guard.specs.declared.table.Table.{Table as TableSeen};
ghost use Rattle.cat_cert.specs.declared.refusal.CertRefusal.{CertRefusal as RefusalSeen};
ghost use Rattle.cat_cert.specs.declared.refusal.CertRefusal.TheVariants.{Memory};
ghost use Rattle.cat_audit_sound.specs.Audited.{HasNoGap};
ghost use Rattle.cat_audit_table.specs.AuditedTables.{AreTablesOf};
ghost use Rattle.cat_cert.specs.Checked.{HaveClosedTrees};
ghost use Rattle.cat_cert.specs.ScopeTables.{AreNamedInLines, HasScopeCause};
ghost use Rattle.cat_cert.specs.ScopeTables.{IsOverScope, IsScopeCertified};

use crate::{certified_texts_are_not_refused, what_is_written_over_is_read_again};
use cat_audit_sound::audited_programs_have_no_gap;
use cat_depend::{audited_scopes_end_with_the_audited_one, audited_scopes_have_what_they_call};
use cat_guard::closed_trees_cover_each_valuation;
use cat_scope::Program;

/// A scope and those that it calls have one list of tables.
pub fn audited_scopes_have_one_list_of_tables(program: &Program)
    ensures { (scope : ℕ) (tables : List TableSeen) (others : List TableSeen) → AreTablesOf program.now scope tables
        → AreTablesOf program.now scope others → tables ≡ others }
{}

/// Where each target of a scope, and of those that it calls, has a closed tree, no well-typed input of the scope ends
/// in a Conflict or a NoValue.
pub fn closed_tables_leave_no_gap(program: &Program)
    ensures { (scope : ℕ) (tables : List TableSeen) → scope < length program.now.bodies
        → AreTablesOf program.now scope tables → HaveClosedTrees tables → HasNoGap program.now scope }
{
    audited_scopes_have_what_they_call(program);
    audited_scopes_end_with_the_audited_one(program);
    closed_trees_cover_each_valuation();
    audited_programs_have_no_gap(program);
}

/// What is written over of a certificate for a scope is one again, where no name of the program holds a line feed.
pub fn what_is_written_over_is_certified_again(program: &Program)
    ensures { (scope : ℕ) (bytes : List ℕ) (text : List ℕ) → AreNamedInLines program.now.decls
        → IsOverScope program.now scope bytes (Some text) → IsScopeCertified program.now scope text }
{
    what_is_written_over_is_read_again();
}

/// A certificate for a scope isn't refused, unless for want of memory, where a `usize` numbers its bytes.
pub fn certified_scopes_are_not_refused(program: &Program)
    ensures { (scope : ℕ) (bytes : List ℕ) (why : RefusalSeen) → length bytes < 2 ^ 64
        → IsScopeCertified program.now scope bytes → HasScopeCause program.now scope bytes why → why ≡ Memory }
{
    certified_texts_are_not_refused();
}
