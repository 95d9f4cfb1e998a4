// Segments out of lines.
ghost use Rattle.std.specs.Prelude.{◌≡◌, ◌≢◌, ◌+◌, ◌<◌, ◌≤◌, false, length, Err, IfOk, IfErr, MatchOption, MatchResult};
ghost use Rattle.std.specs.Prelude.{IfSome, ◌∷◌};
ghost use Rattle.cat_pos.specs.Position.{pos_file};
ghost use Rattle.cat_weave.specs.Woven.{woven, woven_lines, line_position, closes, AreWithin};
ghost use Rattle.cat_weave.specs.Kinds.{ClosingLine};
ghost use Rattle.cat_weave.specs.inside.Reading.{law_kinds, block_kinds, code_segment, IsCodeBefore, IsStep, IsOpen};
ghost use Rattle.std.specs.Option.{option_to_list};

use crate::line::{Line, bare, first_line, law_line};
use crate::{Segment, WeaveRefusal, Woven};
use cat_pos::{List, MOST_FILE_BYTES, MOST_FILES, Piece, Pos, Text, pos_at};
use std::alloc::{AllocError, Global};

/// The segments of a file.
pub fn weave(alloc: Global, bytes: &[u8], file: u32) -> Result<Woven, WeaveRefusal>
    requires short { length bytes.now ≤ MOST_FILE_BYTES }
    requires file { file < MOST_FILES }
    ensures gives { result ≢ Err WeaveRefusal.Memory → result ≡ woven bytes.now file }
    ensures within { IfOk result (λ woven. AreWithin (length bytes.now) file woven.segments) }
{
    match str::from_utf8(bytes) {
        Ok(text) => woven_text(alloc, text, file),
        Err(error) => Err(WeaveRefusal::NotUtf8(pos_at(bytes, file, error.valid_up_to()))),
    }
}

fn woven_text(alloc: Global, text: &str, file: u32) -> Result<Woven, WeaveRefusal>
    requires short { length text.now ≤ MOST_FILE_BYTES }
    requires file { file < MOST_FILES }
    ensures gives { result ≢ Err WeaveRefusal.Memory → result ≡ woven_lines file (law_kinds text.now) }
    ensures within { IfOk result (λ woven. AreWithin (length text.now) file woven.segments) }
{
    let mut segments = List::new(alloc);
    let mut rest = text;
    let mut line = 1;
    while !rest.is_empty() {
        let Step {
            segment,
            lines,
            after,
        } = next_step(alloc, rest, file, line)?;
        if let Some(segment) = segment {
            segments.push(segment)?;
        }
        line += lines;
        rest = after;
    }
    Ok(Woven { segments })
}

/// A line outside every block, or a whole block.
#[derive(Drop)]
struct Step<'a> {
    segment: Option<Segment>,
    lines: u32,
    after: &'a str,
}

fn next_step(alloc: Global, rest: &str, file: u32, line: u32) -> Result<Step<'_>, WeaveRefusal>
    requires some { 0 < length rest.now }
    requires short { line + length rest.now ≤ MOST_FILE_BYTES + 1 }
    requires file { file < MOST_FILES }
    ensures gives { MatchResult result
        (λ s. IsStep file line (law_kinds rest.now) s.segment s.lines (law_kinds s.after.now))
        (λ e. IsOpen file line (law_kinds rest.now) e) }
    ensures fewer { IfOk result (λ s. s.lines + length s.after.now ≤ length rest.now) }
    ensures goes_on { IfOk result (λ s. 0 < s.lines) }
{
    let (text, after) = first_line(rest);
    let pos = Pos::new(file, line, 1);
    match law_line(bare(text)) {
        Line::Law => Ok(line_step(None, after)),
        Line::Opening => block_step(alloc, after, pos),
        Line::Heading(level, text) => {
            let text = Text::from_str(alloc, text)?;
            Ok(line_step(Some(Segment::Heading(level, text, pos)), after))
        }
        Line::Include(path) => {
            let path = Text::from_str(alloc, path)?;
            Ok(line_step(Some(Segment::Include(path, pos)), after))
        }
    }
}

fn line_step(segment: Option<Segment>, after: &str) -> Step<'_>
    ensures { result ≡ record { segment = segment; lines = 1; after = after.entry } }
{
    Step {
        segment,
        lines: 1,
        after,
    }
}

/// The lines after an opening line, up to the closing line.
fn block_step(alloc: Global, text: &str, opening: Pos) -> Result<Step<'_>, WeaveRefusal>
    requires { opening.line + length text.now ≤ MOST_FILE_BYTES }
    ensures gives { MatchResult result
        (λ s. (code : _) × (count : _) × IsCodeBefore (block_kinds text.now) code count
        (ClosingLine ∷ law_kinds s.after.now)
        × (option_to_list s.segment ≡ code_segment (line_position (pos_file opening) (opening.line + 1)) code count)
        × (s.lines ≡ count + 2))
        (λ e. e ≢ WeaveRefusal.Memory → (e ≡ WeaveRefusal.FenceOpen opening)
        × (closes (block_kinds text.now) ≡ false)) }
    ensures fewer { IfOk result (λ s. s.lines + length s.after.now ≤ length text.now + 1) }
{
    let Some(block) = block_of(text) else {
        return Err(WeaveRefusal::FenceOpen(opening));
    };
    let segment = piece_of(alloc, block.code, block.code_lines, opening)?;
    Ok(Step {
        segment,
        lines: block.code_lines + 2,
        after: block.after,
    })
}

/// The piece of code below an opening line, if it has lines.
fn piece_of(
    alloc: Global,
    code: &str,
    code_lines: u32,
    opening: Pos,
) -> Result<Option<Segment>, AllocError>
    requires { opening.line < MOST_FILE_BYTES }
    ensures { IfOk result (λ segment. option_to_list segment
        ≡ code_segment (line_position (pos_file opening) (opening.line + 1)) code.now code_lines) }
{
    if code_lines == 0 {
        return Ok(None);
    }
    let text = Text::from_str(alloc, code)?;
    let pos = Pos::new(opening.file(), opening.line + 1, 1);
    Ok(Some(Segment::Code(Piece { text, pos })))
}

/// The code of a block and what follows its closing line.
#[derive(Drop)]
struct Block<'a> {
    code: &'a str,
    code_lines: u32,
    after: &'a str,
}

fn block_of(text: &str) -> Option<Block<'_>>
    requires { length text.now ≤ MOST_FILE_BYTES }
    ensures gives { MatchOption result (closes (block_kinds text.now) ≡ false)
        (λ b. IsCodeBefore (block_kinds text.now) b.code.now b.code_lines (ClosingLine ∷ law_kinds b.after.now)) }
    ensures fewer { IfSome result (λ b. b.code_lines + length b.after.now < length text.now) }
{
    let mut rest = text;
    let mut code_lines = 0;
    while !rest.is_empty() {
        let (line, after) = first_line(rest);
        if bare(line) == "```" {
            let code = &text[..text.len() - rest.len()];
            return Some(Block {
                code,
                code_lines,
                after,
            });
        }
        code_lines += 1;
        rest = after;
    }
    None
}
