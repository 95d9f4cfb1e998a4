// Verifies an image.
ghost use Rattle.std.specs.Prelude.{◌≡◌, ◌≤◌, length, map, IfOk, IfErr};
ghost use Rattle.cat_code.specs.Places.{function_places};
ghost use Rattle.cat_verify_tables.specs.TableWords.{numbered};
ghost use Rattle.cat_verify.specs.Told.{IsVerified};
ghost use Rattle.cat_verify.specs.Refused.{HasCause};
ghost use Rattle.cat_verify.specs.inside.Orderly.{SurplusCause, IsOrderly, AreCallsHome};
ghost use Rattle.cat_verify.specs.inside.Verifying.{IsPrepared, IsGood, NumberedCause, CodeCause};

use crate::abroad::refuse_abroad;
use crate::jumps::refuse_back;
use crate::numbers::refuse_numbers;
use crate::owners::owners_in_order;
use crate::{Verified, VerifyRefusal};
use cat_code::{Code, Instr, Tables};
use cat_image::{Image, an_image_has_few_rows};
use cat_verify_shapes::refuse_shapes;
use cat_verify_tables::{FunctionPlace, Told, tell};
use std::alloc::Global;

/// Refuses a function that no item declares.
fn refuse_surplus(
    tables: &Tables,
    code: &[Instr],
    functions: &[FunctionPlace],
) -> Result<(), VerifyRefusal>
    requires { functions.now ≡ map numbered (function_places tables.now.decls) }
    ensures none { IfOk result (λ _. length tables.now.functions ≤ length functions.now) }
    ensures cause { IfErr result (SurplusCause tables.now code.now) }
{
    let Some(&entry) = tables.functions.get(functions.len()) else {
        return Ok(());
    };
    let place = entry as usize;
    if place < code.len() {
        return Err(VerifyRefusal::BadNumber(place));
    }
    Err(VerifyRefusal::BadNumber(code.len()))
}

/// Refuses code with a number that names nothing, or that breaks a rule of listings.
fn refuse_unnumbered(
    alloc: Global,
    tables: &Tables,
    code: &[Instr],
    functions: &[FunctionPlace],
    types: &[u32],
) -> Result<(), VerifyRefusal>
    requires { IsPrepared tables.now code.now functions.now types.now }
    ensures orderly { IfOk result (λ _. IsOrderly tables.now code.now functions.now) }
    ensures home { IfOk result (λ _. AreCallsHome tables.now code.now) }
    ensures cause { IfErr result (NumberedCause tables.now code.now) }
{
    refuse_surplus(tables, code, functions)?;
    refuse_numbers(alloc, tables, code)?;
    refuse_abroad(alloc, tables, code, functions)?;
    Ok(())
}

/// Refuses code that isn't valid and tame.
fn refuse_code(
    alloc: Global,
    tables: &Tables,
    code: &[Instr],
    functions: &[FunctionPlace],
    types: &[u32],
) -> Result<(), VerifyRefusal>
    requires { IsPrepared tables.now code.now functions.now types.now }
    ensures good { IfOk result (λ _. IsGood tables.now code.now) }
    ensures cause { IfErr result (CodeCause tables.now code.now) }
{
    refuse_unnumbered(alloc, tables, code, functions, types)?;
    refuse_back(code)?;
    let owners = owners_in_order(alloc, tables, code, functions)?;
    refuse_shapes(alloc, tables, code, functions, types, owners.as_slice())?;
    Ok(())
}

/// The tables and the code of an image, where each run of the code ends and none is stuck.
pub fn verify(alloc: Global, image: Image) -> Result<Verified, VerifyRefusal>
    ensures verified { IfOk result (λ verified. IsVerified image verified.code verified.files) }
    ensures cause { IfErr result (HasCause image) }
{
    an_image_has_few_rows(&image);
    let told = tell(alloc, &image)?;
    let code = image.instructions();
    let functions = told.functions.as_slice();
    refuse_code(alloc, &told.tables, code, functions, told.order.as_slice())?;
    let Told {
        tables,
        files,
        functions: _,
        order: _,
    } = told;
    let code = Code::from_parts(tables, image.instructions);
    Ok(Verified::new(code, files))
}
