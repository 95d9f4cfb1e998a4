// What a check says of an audit, in the words of replies.
ghost use Rattle.std.specs.Prelude.{ℕ, List, Some};
ghost use Rattle.cat_pos.specs.declared.pos.Piece.{Piece};
ghost use Rattle.cat_io.specs.Shelf.{Shelved};
ghost use Rattle.cat_io.specs.Sink.{Sunk};
ghost use Rattle.cat_scope.specs.declared.programs.Program.{Program as ProgramSeen};
ghost use Rattle.cat_weave.specs.declared.source.Source.{Source};
ghost use Rattle.cat_cert.specs.ScopeTables.{IsOverScope};
ghost use Rattle.cat_build.specs.Accepted.{IsAccepted};
ghost use Rattle.cat_laws.specs.Unbroken.{AreUnbroken};
ghost use Rattle.cat_app.specs.Words.{Request};
ghost use Rattle.cat_app.specs.Complete.{EndsCheck, IsToldCheck};
ghost use Rattle.cat_app.specs.declared.status.Status.{Status};
ghost use Rattle.cat_laws.specs.CheckedAudits.{EndsYes, IsCompleteAudit};

use crate::{
    certificates_of_version_2_are_answered_yes, declared_names_are_unbroken,
    what_an_audit_writes_is_certified, what_is_written_over_is_certified,
};
use cat_scope::{Program, programs_are_well_formed};

/// No name of a scope or of an item of an accepted program holds a line feed or a hyphen.
pub fn accepted_programs_are_unbroken()
    ensures { (pieces : List Piece) (program : ProgramSeen) → IsAccepted pieces program
        → AreUnbroken program.decls.scopes }
{
    declared_names_are_unbroken();
}

/// A check of what an audit wrote of a complete scope, over told contents with the same source, ends with Yes, unless
/// the shelf or the sink fails, or for want of memory.
pub fn complete_audits_are_answered_yes(program: &Program)
    ensures { (audit : Request) (source : Source) (scope : ℕ) (text : List ℕ) (words : List (List ℕ))
        (old : Shelved) (check : Request) (sink : Sunk) (sunk : Sunk) (ended : Status)
        → IsCompleteAudit audit source program.now scope text
        → IsToldCheck words old check source program.now scope text
        → EndsCheck sink sunk program.now scope text ended → EndsYes sink sunk ended }
{
    accepted_programs_are_unbroken();
    what_an_audit_writes_is_certified(program);
    certificates_of_version_2_are_answered_yes(program);
    programs_are_well_formed(program);
}

/// So does a check of what another one wrote over.
pub fn what_is_written_over_is_answered_yes(program: &Program)
    ensures { (source : Source) (scope : ℕ) (bytes : List ℕ) (text : List ℕ) (words : List (List ℕ))
        (old : Shelved) (check : Request) (sink : Sunk) (sunk : Sunk) (ended : Status)
        → IsOverScope program.now scope bytes (Some text)
        → IsToldCheck words old check source program.now scope text
        → EndsCheck sink sunk program.now scope text ended → EndsYes sink sunk ended }
{
    accepted_programs_are_unbroken();
    what_is_written_over_is_certified(program);
    certificates_of_version_2_are_answered_yes(program);
}
