// What is read of a line.
ghost use Rattle.std.specs.Prelude.{◌≡◌, ◌∷◌, ◌++◌, ◌-◌, ◌<◌, ◌≤◌, length, slice_index, nat_le, ◌&&◌, true, false};
ghost use Rattle.std.specs.Prelude.{MatchOption};
ghost use Rattle.cat_weave.specs.Lines.{lines_of, bare, without_end, without_last, without_last_blanks};
ghost use Rattle.cat_weave.specs.Lines.{without_first_blanks, last_is};
ghost use Rattle.cat_pos.specs.Bytes.{is_blank};
ghost use Rattle.cat_weave.specs.Kinds.{law_kind, level_of, is_hash, is_heading, is_include, heading_of, include_of};
ghost use Rattle.cat_weave.specs.inside.Reading.{kind_read, line_length};

use cat_pos::is_blank;

const LINE_FEED: u8 = 10;

const CARRIAGE_RETURN: u8 = 13;

/// A line outside every block.
#[derive(Clone, Copy)]
pub(crate) enum Line<'a> {
    Law,
    Opening,
    Heading(u32, &'a str),
    Include(&'a str),
}

/// The first line of a text, with its line feed, and what follows.
pub(crate) fn first_line(text: &str) -> (&str, &str)
    requires { 0 < length text.now }
    ensures lines { lines_of text.now ≡ result.0.now ∷ lines_of result.1.now }
    ensures parts { text.now ≡ result.0.now ++ result.1.now }
    ensures shorter { length result.1.now < length text.now }
{
    text.split_at(line_len(text.as_bytes()))
}

/// How long the first line is, with its line feed.
#[tactic(auto, using(crate::proofs::LineLemmas::lengths))]
fn line_len(text: &[u8]) -> usize
    ensures { result ≡ line_length text.now }
{
    for (at, byte) in text.iter().enumerate() {
        if *byte == LINE_FEED {
            return at + 1;
        }
    }
    text.len()
}

/// A line without its end and the blanks before that.
pub(crate) fn bare(line: &str) -> &str
    ensures { result.now ≡ bare line.now }
{
    without_last_blanks(without_end(line))
}

#[tactic(auto, unfolding(crate::specs::Lines::without_end))]
fn without_end(line: &str) -> &str
    ensures { result.now ≡ without_end line.now }
{
    if !ends_in(line, LINE_FEED) {
        return line;
    }
    without_last(without_last(line, LINE_FEED), CARRIAGE_RETURN)
}

fn ends_in(text: &str, byte: u8) -> bool
    requires { 0 < byte }
    ensures { result ≡ last_is byte text.now }
{
    let bytes = text.as_bytes();
    !bytes.is_empty() && bytes[bytes.len() - 1] == byte
}

#[tactic(auto, unfolding(crate::specs::Lines::without_last))]
fn without_last(text: &str, byte: u8) -> &str
    requires some { 0 < byte }
    requires ascii { byte < 128 }
    ensures { result.now ≡ without_last byte text.now }
{
    if ends_in(text, byte) {
        &text[..text.len() - 1]
    } else {
        text
    }
}

#[tactic(auto, using(crate::proofs::LineLemmas::last_blanks), unfolding(crate::specs::Lines::without_last_blanks))]
fn without_last_blanks(text: &str) -> &str
    ensures { result.now ≡ without_last_blanks text.now }
{
    let bytes = text.as_bytes();
    let mut end = bytes.len();
    while end > 0 && is_blank(bytes[end - 1]) {
        end -= 1;
    }
    &text[..end]
}

#[tactic(auto, using(crate::proofs::LineLemmas::first_blanks), unfolding(crate::specs::Lines::without_first_blanks))]
fn without_first_blanks(text: &str) -> &str
    ensures { result.now ≡ without_first_blanks text.now }
{
    let bytes = text.as_bytes();
    let mut start = 0;
    while start < bytes.len() && is_blank(bytes[start]) {
        start += 1;
    }
    &text[start..]
}

/// What a bare line outside every block is.
#[tactic(auto, unfolding(crate::specs::Kinds::law_kind))]
pub(crate) fn law_line(line: &str) -> Line<'_>
    ensures { kind_read result ≡ law_kind line.now }
{
    if line == "```catala" || line == "```catala-metadata" {
        return Line::Opening;
    }
    if let Some((level, text)) = heading(line) {
        return Line::Heading(level, text);
    }
    if let Some(path) = include(line) {
        return Line::Include(path);
    }
    Line::Law
}

#[tactic(auto, using(crate::proofs::LineLemmas::heading_cut, crate::proofs::LineLemmas::heading_low))]
fn heading(line: &str) -> Option<(u32, &str)>
    ensures { MatchOption result (is_heading line.now ≡ false)
        (λ h. (is_heading line.now ≡ true) × (kind_read (Line.Heading h.0 h.1) ≡ heading_of line.now)) }
{
    let bytes = line.as_bytes();
    let level = level_of(bytes);
    if !is_heading(bytes, level) {
        return None;
    }
    Some((level as u32, &line[level + 1..]))
}

fn is_heading(line: &[u8], level: usize) -> bool
    ensures { result
        ≡ (nat_le 1 level && (nat_le level 6 && is_blank (slice_index line.now level))) }
{
    1 <= level && level <= 6 && level < line.len() && is_blank(line[level])
}

/// How many `#` a line begins with.
#[tactic(auto, using(crate::proofs::LineLemmas::levels), unfolding(crate::specs::Kinds::level_of))]
fn level_of(line: &[u8]) -> usize
    ensures level { result ≡ level_of line.now }
    ensures within { result ≤ length line.now }
{
    let mut level = 0;
    while level < line.len() && line[level] == b'#' {
        level += 1;
    }
    level
}

fn include(line: &str) -> Option<&str>
    ensures { MatchOption result (is_include line.now ≡ false)
        (λ path. (is_include line.now ≡ true) × (kind_read (Line.Include path) ≡ include_of line.now)) }
{
    let rest = line.strip_prefix("> Include: ")?;
    Some(without_first_blanks(rest))
}
