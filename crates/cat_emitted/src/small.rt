// Listings of sources: 32 bits hold each number of code where it is read.
ghost use Rattle.std.specs.Prelude.{◌≡◌, ◌<◌, ◌≤◌, ◌^◌, ℕ, IsTrue, List, length};
ghost use Rattle.std.specs.List.{AllByRecursion};
ghost use Rattle.cat_pos.specs.Limits.{most_input_bytes};
ghost use Rattle.cat_weave.specs.Gathered.{Contents, Whole, gathered};
ghost use Rattle.cat_scope.specs.Names.{AllHave};
ghost use Rattle.cat_build.specs.Built.{IsBuiltOf};
ghost use Rattle.cat_listing.specs.Listing.{listing};
ghost use Rattle.cat_image.specs.InstructionWords.{IsSmallInstr};
ghost use Rattle.cat_image.specs.Listed.{is_line};
ghost use Rattle.cat_emitted.specs.Accepted.{IsAcceptedListing};
ghost use Rattle.cat_emitted.specs.Emitted.{IsSmallPos, IsSmallCode, IsFairListing};

use cat_build::Built;
use cat_code::{Code, Instr, TargetEntry};
use cat_image::{a_listing_is_an_image, a_text_has_one_image};
use cat_pos::Pos;
use cat_value::{ItemDecl, Scope};
use cat_verify_tables::lines_tell_one_table;
use cat_weave::Source;

fn instr_is_small(_instr: Instr)
    ensures { IsSmallInstr _instr }
{}

fn position_is_small(_pos: Pos)
    ensures { IsSmallPos _pos }
{}

fn instructions_are_small(instructions: &[Instr])
    ensures { AllByRecursion IsSmallInstr instructions.now }
{
    for &instr in instructions.iter() {
        instr_is_small(instr);
    }
}

fn positions_are_small(positions: &[Pos])
    ensures { AllHave IsSmallPos positions.now }
{
    for &pos in positions.iter() {
        position_is_small(pos);
    }
}

fn targets_are_small(targets: &[TargetEntry])
    ensures { AllHave (λ t. IsSmallPos t.pos) targets.now }
{
    for target in targets.iter() {
        position_is_small(target.pos);
    }
}

fn items_are_small(items: &[ItemDecl])
    ensures { AllHave (λ i. IsSmallPos i.pos) items.now }
{
    for item in items.iter() {
        position_is_small(item.pos);
    }
}

fn scopes_are_small(scopes: &[Scope])
    ensures { AllHave (λ s. AllHave (λ i. IsSmallPos i.pos) s.items) scopes.now }
{
    for scope in scopes.iter() {
        items_are_small(scope.items.as_slice());
    }
}

/// 32 bits hold the numbers of code, where it has no more instructions than they can number. It takes no time: nothing
/// is done with what is read.
pub fn code_is_small(code: &Code)
    ensures { length code.now.instructions ≤ 2 ^ 32 → IsSmallCode code.now }
{
    let tables = &code.tables;
    scopes_are_small(tables.decls.get().scopes.as_slice());
    targets_are_small(tables.targets.as_slice());
    positions_are_small(tables.definitions.as_slice());
    positions_are_small(tables.positions.as_slice());
    instructions_are_small(code.instructions.as_slice());
}

/// What is listed of the code that a gathered source is built into, under the names of the source's files, is an image,
/// whose words tell the code's tables, and no line of which is bad: where the main file's name is a line, the source
/// has a scope, and the listing has at most 64 MiB.
pub fn listings_of_sources_are_fair(source: &Source, built: &Built)
    ensures { (contents : Contents) (main : List ℕ) → IsTrue (is_line main)
        → gathered contents main ≡ Whole source.now → IsBuiltOf source.now.pieces built.now
        → 0 < length built.now.program.decls.scopes
        → length (listing built.now.code source.now.files) ≤ most_input_bytes
        → IsFairListing (listing built.now.code source.now.files) source.now.files built.now.code }
{
    code_is_small(&built.code);
    a_listing_is_an_image(&built.code, &source.files);
}

/// The listing is accepted: it is read and verified while memory lasts, and tells the code.
pub fn listings_of_sources_are_accepted(source: &Source, built: &Built)
    ensures { (contents : Contents) (main : List ℕ) → IsTrue (is_line main)
        → gathered contents main ≡ Whole source.now → IsBuiltOf source.now.pieces built.now
        → 0 < length built.now.program.decls.scopes
        → length (listing built.now.code source.now.files) ≤ most_input_bytes
        → IsAcceptedListing (listing built.now.code source.now.files) source.now.files built.now.code }
{
    listings_of_sources_are_fair(source, built);
    lines_tell_one_table();
    a_text_has_one_image();
}
