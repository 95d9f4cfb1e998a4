// Where a reader stands in a text, and the lines from there on.
ghost use Rattle.std.specs.Prelude.{◌≡◌, ◌+◌, ◌≤◌, ◌<◌, drop, get_or, length, IfSome, OnSome, MatchOption};
ghost use Rattle.std.specs.List.{prefix_len};
ghost use Rattle.std.specs.Option.{option_map};
ghost use Rattle.cat_cert.specs.Texts.{is_other};
ghost use Rattle.cat_cert.specs.inside.Outcomes.{lines_at, rest_at, IsNext, IsWithin, IsStart, HasNoStart};

use crate::line::begins;

/// Behind a line feed: how many bytes stand before, and how many lines.
#[derive(Clone, Copy)]
pub(crate) struct Place {
    pub at: usize,
    pub line: usize,
}

/// Where the first line feed stands from there on, or the length.
#[tactic(auto, using(crate::proofs::FeedLemmas::feeds))]
pub fn feed_from(bytes: &[u8], at: usize) -> usize
    requires { at ≤ length bytes.now }
    ensures feed { result ≡ at + prefix_len is_other (drop at bytes.now) }
    ensures within { result ≤ length bytes.now }
    ensures stands { result < length bytes.now → get_or bytes.now result 0 ≡ 10 }
{
    let mut end = at;
    while end < bytes.len() && bytes[end] != b'\n' {
        end += 1;
    }
    end
}

/// The next line, without its line feed.
pub(crate) fn next_line<'a>(bytes: &'a [u8], place: &mut Place) -> Option<&'a [u8]>
    requires { IsWithin bytes.now place.old }
    ensures next { IsNext bytes.now place.old place.new (option_map (λ line. line.now) result) }
    ensures within { IsWithin bytes.now place.new }
    ensures later { OnSome result (place.old.at < place.new.at) }
{
    let start = place.at;
    let end = feed_from(bytes, start);
    if end == bytes.len() {
        return None;
    }
    place.at = end + 1;
    place.line += 1;
    Some(&bytes[start..end])
}

/// Before the first line with which a certificate may begin.
pub(crate) fn first_place(bytes: &[u8]) -> Option<Place>
    ensures start { MatchOption result (HasNoStart bytes.now) (IsStart bytes.now) }
    ensures within { IfSome result (IsWithin bytes.now) }
{
    let mut place = Place { at: 0, line: 0 };
    let mut before = place;
    while let Some(line) = next_line(bytes, &mut place) {
        if begins(line, "catala-certificate") {
            return Some(before);
        }
        before = place;
    }
    None
}
