// From pieces to a program: tokens, tree, and what the tree means.
ghost use Rattle.std.specs.Prelude.{◌≡◌, ◌<◌, IfOk, IfErr, length, slice_get};
ghost use Rattle.cat_pos.specs.declared.limits.TheConstants.{ENTRIES_BOUND};
ghost use Rattle.cat_pos.specs.Readable.{AreReadable, IsReadable};
ghost use Rattle.cat_weave.specs.Causes.{AreReadableTogether};
ghost use Rattle.cat_lex.specs.Positions.{position_after};
ghost use Rattle.cat_lex.specs.Lexes.{Lexes};
ghost use Rattle.cat_scope.specs.Names.{AllHave};
ghost use Rattle.cat_names.specs.Accepted.{IsParsed, IsProgramOf};
ghost use Rattle.cat_build.specs.Accepted.{IsProgramIn, IsTreeOf};
ghost use Rattle.cat_build.specs.Causes.{HasCause, end_of, token_position};

use crate::code::{BuildRefusal, FaultCode, fault_refusal};
use cat_check::check;
use cat_lex::{LexRefusal, Token, Tokens, lex, position_after};
use cat_names::{Refusal, definitions_are_counted};
use cat_parse::{ParseRefusal, program};
use cat_pos::{Piece, Pos};
use cat_scope::Program;
use cat_tree::Tree;
use std::alloc::Global;

/// The tokens of the pieces.
fn tokens_of(alloc: Global, pieces: &[Piece]) -> Result<Tokens, BuildRefusal>
    requires { AreReadable pieces.now }
    ensures lexed { IfOk result (Lexes pieces.now) }
    ensures cause { IfErr result (HasCause pieces.now) }
{
    match lex(alloc, pieces) {
        Ok(tokens) => Ok(tokens),
        Err(LexRefusal::NoToken(pos)) => Err(BuildRefusal::Refused(FaultCode::NoToken, pos)),
        Err(LexRefusal::LiteralRange(pos)) => Err(BuildRefusal::Refused(
            FaultCode::LiteralRange,
            pos,
        )),
        Err(LexRefusal::Memory) => Err(BuildRefusal::Memory),
    }
}

/// The position behind a piece.
fn position_behind(piece: &Piece) -> Pos
    requires { IsReadable piece.now }
    ensures { result ≡ position_after piece.now.pos piece.now.text }
{
    position_after(piece.pos, piece.text.as_str().as_bytes())
}

/// The position behind the last piece.
fn position_at_end(pieces: &[Piece]) -> Pos
    requires { AreReadable pieces.now }
    ensures { result ≡ end_of pieces.now }
{
    match pieces.last() {
        Some(piece) => position_behind(piece),
        None => Pos::new(0, 1, 1),
    }
}

/// The position of the token of that number, or of the end where there is none.
fn position_of(pieces: &[Piece], tokens: &[Token], at: usize) -> Pos
    requires { AreReadable pieces.now }
    ensures { result ≡ token_position pieces.now (slice_get tokens.now at) }
{
    match tokens.get(at) {
        Some(token) => token.pos,
        None => position_at_end(pieces),
    }
}

/// The tree that the tokens of the pieces spell.
fn tree_of(alloc: Global, pieces: &[Piece], tokens: &[Token]) -> Result<Tree, BuildRefusal>
    requires readable { AreReadable pieces.now }
    requires lexed { Lexes pieces.now tokens.now }
    ensures spelled { IfOk result (IsTreeOf pieces.now) }
    ensures cause { IfErr result (HasCause pieces.now) }
{
    match program(alloc, tokens) {
        Ok(tree) => Ok(tree),
        Err(ParseRefusal::Unexpected(at)) => {
            let pos = position_of(pieces, tokens, at);
            Err(BuildRefusal::Refused(FaultCode::Unexpected, pos))
        }
        Err(ParseRefusal::TooDeep(at)) => {
            let pos = position_of(pieces, tokens, at);
            Err(BuildRefusal::Refused(FaultCode::TooDeep, pos))
        }
        Err(ParseRefusal::Memory) => Err(BuildRefusal::Memory),
    }
}

/// The program of a tree, where the pieces are that tree.
fn checked(alloc: Global, pieces: &[Piece], tree: Tree) -> Result<Program, BuildRefusal>
    requires parsed { IsParsed tree }
    requires spelled { IsTreeOf pieces.now tree }
    ensures meant { IfOk result (λ program.
        IsProgramOf tree program.decls program.bodies program.scope_order) }
    ensures cause { IfErr result (HasCause pieces.now) }
{
    match check(alloc, tree) {
        Ok(program) => Ok(program),
        Err(Refusal::Refused(fault)) => Err(fault_refusal(fault)),
        Err(Refusal::Memory) => Err(BuildRefusal::Memory),
    }
}

/// The program of the tree that the pieces are.
fn program_of(alloc: Global, pieces: &[Piece], tree: Tree) -> Result<Program, BuildRefusal>
    requires readable { AreReadableTogether pieces.now }
    requires spelled { IsTreeOf pieces.now tree }
    ensures program { IfOk result (IsProgramIn pieces.now) }
    ensures few { IfOk result (λ program. AllHave (λ body. length body.defs < ENTRIES_BOUND) program.bodies) }
    ensures cause { IfErr result (HasCause pieces.now) }
{
    definitions_are_counted();
    let program = checked(alloc, pieces, tree)?;
    Ok(program)
}

/// The tree that the pieces are. Their tokens are dropped with the answer, since they take as much memory as the tree.
fn parsed(alloc: Global, pieces: &[Piece]) -> Result<Tree, BuildRefusal>
    requires { AreReadable pieces.now }
    ensures spelled { IfOk result (IsTreeOf pieces.now) }
    ensures cause { IfErr result (HasCause pieces.now) }
{
    let tokens = tokens_of(alloc, pieces)?;
    let tree = tree_of(alloc, pieces, tokens.as_slice())?;
    Ok(tree)
}

/// The program that the pieces are.
pub fn program_in(alloc: Global, pieces: &[Piece]) -> Result<Program, BuildRefusal>
    requires { AreReadableTogether pieces.now }
    ensures program { IfOk result (IsProgramIn pieces.now) }
    ensures few { IfOk result (λ program. AllHave (λ body. length body.defs < ENTRIES_BOUND) program.bodies) }
    ensures cause { IfErr result (HasCause pieces.now) }
{
    let tree = parsed(alloc, pieces)?;
    program_of(alloc, pieces, tree)
}
