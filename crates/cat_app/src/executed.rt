// A run of code that a listing tells.
ghost use Rattle.std.specs.Prelude.{◌≡◌, ◌<◌, IfOk, OnErr, length};
ghost use Rattle.cat_value.specs.Inputs.{IsWellTyped};
ghost use Rattle.cat_scope.specs.Named.{number_named};
ghost use Rattle.cat_app.specs.Executed.{IsAskedOf};
ghost use Rattle.cat_app.specs.Table.{ListsOne};
ghost use Rattle.cat_app.specs.inside.AskedWords.{listing_asked};
ghost use Rattle.cat_app.specs.inside.SaysOfListings.{IsImageOf, MayTellOf, SaysRunOf};

use crate::ran::tell;
use crate::reply::Reply;
use crate::request::ListingWords;
use crate::texts::{no_scope, refuse_code, refuse_file, refuse_image, refuse_input};
use cat_code::code_is_valid;
use cat_code_sound::valid_code_runs_to_an_end;
use cat_image::{Image, read_listing};
use cat_io::{Shelf, read_all};
use cat_json::read_input;
use cat_machine::execute;
use cat_pool::Pool;
use cat_pos::MOST_INPUT_BYTES;
use cat_value::{Decls, Input, declarations_are_sound};
use cat_verify::{Verified, verify};
use std::alloc::{AllocError, Global};

/// Reads the listing first.
pub fn listing_reply<S: Shelf>(
    alloc: Global,
    asked: ListingWords<'_>,
    shelf: &mut S,
) -> Result<Reply, AllocError>
    ensures told { (S.state shelf.new).content ≡ (S.state shelf.old).content }
    ensures may { IfOk result (MayTellOf asked.entry (S.state shelf.old) (S.state shelf.new)) }
    ensures lists { OnErr result (ListsOne (S.state shelf.old) (S.state shelf.new)) }
{
    let bytes = match read_all(alloc, shelf, asked.file, MOST_INPUT_BYTES) {
        Ok(bytes) => bytes,
        Err(fault) => return refuse_file(alloc, asked.file, fault),
    };
    match read_listing(alloc, &bytes) {
        Ok(image) => {
            // so that what is made of the image may take their room
            drop(bytes);
            image_reply(alloc, asked, image, shelf)
        }
        Err(refusal) => refuse_image(alloc, refusal),
    }
}

/// Verifies the image, and looks for the scope.
fn image_reply<S: Shelf>(
    alloc: Global,
    asked: ListingWords<'_>,
    image: Image,
    shelf: &mut S,
) -> Result<Reply, AllocError>
    requires { IsImageOf asked (S.state shelf.old) image }
    ensures told { (S.state shelf.new).content ≡ (S.state shelf.old).content }
    ensures may { IfOk result (MayTellOf asked.entry (S.state shelf.old) (S.state shelf.new)) }
    ensures lists { OnErr result (ListsOne (S.state shelf.old) (S.state shelf.new)) }
{
    let verified = match verify(alloc, image) {
        Ok(verified) => verified,
        Err(refusal) => return refuse_code(alloc, refusal),
    };
    match scope_named(verified.decls(), asked.scope) {
        Some(scope) => input_reply(alloc, asked, &verified, scope, shelf),
        None => no_scope(alloc, asked.scope),
    }
}

/// The scope with that name, where there is one.
fn scope_named(decls: &Decls, name: &str) -> Option<u32>
    ensures { result ≡ number_named name.now 0 decls.now.scopes }
{
    declarations_are_sound(decls);
    for (number, scope) in decls.scopes.as_slice().iter().enumerate() {
        if scope.name.as_str() == name {
            return Some(number as u32);
        }
    }
    None
}

/// Reads the input, and runs the scope on it.
fn input_reply<S: Shelf>(
    alloc: Global,
    asked: ListingWords<'_>,
    verified: &Verified,
    scope: u32,
    shelf: &mut S,
) -> Result<Reply, AllocError>
    requires { IsAskedOf (listing_asked asked) (S.state shelf.old) verified.now.code verified.now.files scope }
    ensures told { (S.state shelf.new).content ≡ (S.state shelf.old).content }
    ensures may { IfOk result (MayTellOf asked.entry (S.state shelf.old) (S.state shelf.new)) }
    ensures lists { OnErr result (ListsOne (S.state shelf.old) (S.state shelf.new)) }
{
    let extra = match read_all(alloc, shelf, asked.extra, MOST_INPUT_BYTES) {
        Ok(bytes) => bytes,
        Err(fault) => return refuse_file(alloc, asked.extra, fault),
    };
    match read_input(alloc, &extra, verified.decls(), scope) {
        Ok(input) => executed(alloc, verified, scope, &input),
        Err(refusal) => refuse_input(alloc, refusal),
    }
}

/// What the code gives on the input: valid and tame code runs to an end, and to no other one.
fn executed(
    alloc: Global,
    verified: &Verified,
    scope: u32,
    input: &Input,
) -> Result<Reply, AllocError>
    requires scope { scope < length verified.now.code.tables.decls.scopes }
    requires typed { IsWellTyped verified.now.code.tables.decls scope input.now }
    ensures { IfOk result (SaysRunOf verified.now.code verified.now.files scope input.now) }
{
    valid_code_runs_to_an_end();
    code_is_valid(verified.code());
    let mut pool = Pool::new(alloc);
    let outcome = execute(alloc, verified.code(), scope, input, &mut pool)?;
    tell(alloc, verified.files(), verified.decls(), scope, &outcome)
}
