// The listing.
ghost use Rattle.std.specs.Prelude.{◌≡◌, ◌++◌, IfOk, OnOk, string_bytes};
ghost use Rattle.cat_listing.specs.Texts.{lines_of};
ghost use Rattle.cat_listing.specs.Listing as words;

use crate::decls::push_decls;
use crate::instrs::push_instructions;
use crate::texts::{place_text, type_text};
use cat_answer::{target_text, value_text};
use cat_code::{Code, Constant, Tables, TargetEntry};
use cat_pos::{Files, Pos};
use cat_value::Decls;
use std::alloc::{AllocError, Global};
use std::fmt::Write;

/// Writes the name of a file.
#[tactic(auto, unfolding(crate::specs::Listing::file_line))]
fn push_file(text: &mut String, name: &str) -> Result<(), AllocError>
    ensures { OnOk result (string_bytes text.new ≡ string_bytes text.old ++ words.file_line name.now) }
{
    write!(text, "file {name}\n")
}

#[tactic(auto, using(crate::proofs::NextFile::no_file))]
fn push_files(text: &mut String, files: &Files) -> Result<(), AllocError>
    ensures { OnOk result (string_bytes text.new ≡ string_bytes text.old ++ lines_of words.file_line files.now) }
{
    for n in 0..files.len() {
        let Ok(file) = u32::try_from(n) else {
            return Err(AllocError);
        };
        push_file(text, files.name(file))?;
    }
    Ok(())
}

/// Writes a target.
#[tactic(auto, unfolding(crate::specs::Listing::target_line))]
fn push_target(
    alloc: Global,
    text: &mut String,
    entry: TargetEntry,
    decls: &Decls,
) -> Result<(), AllocError>
    ensures { OnOk result (string_bytes text.new ≡ string_bytes text.old ++ words.target_line decls.now entry) }
{
    let target = target_text(alloc, entry.target, decls)?;
    let place = place_text(alloc, entry.pos)?;
    write!(text, "target {target} {place}\n")
}

fn push_targets(
    alloc: Global,
    text: &mut String,
    targets: &[TargetEntry],
    decls: &Decls,
) -> Result<(), AllocError>
    ensures { OnOk result (string_bytes text.new
        ≡ string_bytes text.old ++ lines_of (words.target_line decls.now) targets.now) }
{
    for &entry in targets {
        push_target(alloc, text, entry, decls)?;
    }
    Ok(())
}

/// Writes a position behind a name.
#[tactic(auto, unfolding(crate::specs::Listing::place_line))]
fn push_place(text: &mut String, name: &str, pos: Pos) -> Result<(), AllocError>
    ensures { OnOk result (string_bytes text.new ≡ string_bytes text.old ++ words.place_line name.now pos) }
{
    let file = pos.file();
    let line = pos.line;
    let column = pos.column();
    write!(text, "{name}{file}:{line}:{column}\n")
}

fn push_places(text: &mut String, name: &str, positions: &[Pos]) -> Result<(), AllocError>
    ensures { OnOk result (string_bytes text.new
        ≡ string_bytes text.old ++ lines_of (words.place_line name.now) positions.now) }
{
    for &pos in positions {
        push_place(text, name, pos)?;
    }
    Ok(())
}

/// Writes where a function begins.
#[tactic(auto, unfolding(crate::specs::Listing::function_line))]
fn push_function(text: &mut String, entry: u32) -> Result<(), AllocError>
    ensures { OnOk result (string_bytes text.new ≡ string_bytes text.old ++ words.function_line entry) }
{
    write!(text, "function {entry}\n")
}

fn push_functions(text: &mut String, functions: &[u32]) -> Result<(), AllocError>
    ensures { OnOk result (string_bytes text.new
        ≡ string_bytes text.old ++ lines_of words.function_line functions.now) }
{
    for &entry in functions {
        push_function(text, entry)?;
    }
    Ok(())
}

/// Writes a constant.
#[tactic(auto, unfolding(crate::specs::Listing::constant_line))]
fn push_constant(
    alloc: Global,
    text: &mut String,
    constant: &Constant,
    decls: &Decls,
) -> Result<(), AllocError>
    ensures { OnOk result (string_bytes text.new
        ≡ string_bytes text.old ++ words.constant_line decls.now constant.now) }
{
    let ty = type_text(alloc, &constant.ty, decls)?;
    let value = value_text(alloc, &constant.value, &constant.ty, decls)?;
    write!(text, "const {ty} {value}\n")
}

fn push_constants(
    alloc: Global,
    text: &mut String,
    constants: &[Constant],
    decls: &Decls,
) -> Result<(), AllocError>
    ensures { OnOk result (string_bytes text.new
        ≡ string_bytes text.old ++ lines_of (words.constant_line decls.now) constants.now) }
{
    for constant in constants {
        push_constant(alloc, text, constant, decls)?;
    }
    Ok(())
}

/// Writes the tables behind the declarations.
#[tactic(auto, unfolding(crate::specs::Listing::table_lines))]
fn push_tables(alloc: Global, text: &mut String, tables: &Tables) -> Result<(), AllocError>
    ensures { OnOk result (string_bytes text.new ≡ string_bytes text.old ++ words.table_lines tables.now) }
{
    push_targets(alloc, text, tables.targets.as_slice(), tables.decls.get())?;
    push_places(text, "definition ", tables.definitions.as_slice())?;
    push_functions(text, tables.functions.as_slice())?;
    push_places(text, "position ", tables.positions.as_slice())?;
    push_constants(alloc, text, tables.constants.as_slice(), tables.decls.get())
}

/// The listing of code whose sources have these names.
#[tactic(auto, unfolding(crate::specs::Listing::listing))]
pub fn listing(alloc: Global, code: &Code, files: &Files) -> Result<String, AllocError>
    ensures { IfOk result (λ text. string_bytes text ≡ words.listing code.now files.now) }
{
    let mut text = String::from_str(alloc, "catala-code 1\n")?;
    push_files(&mut text, files)?;
    push_decls(
        alloc,
        &mut text,
        code.tables.decls.get(),
        code.tables.scopes.as_slice(),
    )?;
    push_tables(alloc, &mut text, &code.tables)?;
    push_instructions(&mut text, code.instructions.as_slice())?;
    Ok(text)
}
