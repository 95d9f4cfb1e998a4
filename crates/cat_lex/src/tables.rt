//! The spellings of keywords, double keywords and symbols, and their look-up.
ghost use Rattle.std.specs.Prelude.{◌≡◌};
ghost use Rattle.cat_lex.specs.Words.{look_up, look_up_pair, double_keywords, keyword_of, double_keyword_of, symbol_of};
ghost use Rattle.cat_lex.specs.inside.Tables.{spelled, spelled_pairs, begins_pair};

use crate::{DoubleKeyword, Keyword, Symbol};

const OF_TWO_LETTERS: [(&str, Keyword); 5] = [
    ("of", Keyword::Of),
    ("if", Keyword::If),
    ("or", Keyword::Or),
    ("to", Keyword::To),
    ("in", Keyword::In),
];

const OF_THREE_LETTERS: [(&str, Keyword); 5] = [
    ("not", Keyword::Not),
    ("and", Keyword::And),
    ("xor", Keyword::Xor),
    ("day", Keyword::Day),
    ("sum", Keyword::Sum),
];

const OF_FOUR_LETTERS: [(&str, Keyword); 8] = [
    ("data", Keyword::Data),
    ("rule", Keyword::Rule),
    ("then", Keyword::Then),
    ("else", Keyword::Else),
    ("with", Keyword::With),
    ("true", Keyword::True),
    ("date", Keyword::Date),
    ("year", Keyword::Year),
];

const OF_FIVE_LETTERS: [(&str, Keyword); 8] = [
    ("scope", Keyword::Scope),
    ("input", Keyword::Input),
    ("label", Keyword::Label),
    ("match", Keyword::Match),
    ("false", Keyword::False),
    ("money", Keyword::Money),
    ("month", Keyword::Month),
    ("among", Keyword::Among),
];

const OF_SIX_LETTERS: [(&str, Keyword); 3] = [
    ("output", Keyword::Output),
    ("equals", Keyword::Equals),
    ("exists", Keyword::Exists),
];

const OF_SEVEN_LETTERS: [(&str, Keyword); 6] = [
    ("content", Keyword::Content),
    ("context", Keyword::Context),
    ("boolean", Keyword::Boolean),
    ("integer", Keyword::Integer),
    ("decimal", Keyword::Decimal),
    ("get_day", Keyword::GetDay),
];

const OF_EIGHT_LETTERS: [(&str, Keyword); 5] = [
    ("internal", Keyword::Internal),
    ("anything", Keyword::Anything),
    ("duration", Keyword::Duration),
    ("contains", Keyword::Contains),
    ("get_year", Keyword::GetYear),
];

const OF_NINE_LETTERS: [(&str, Keyword); 7] = [
    ("structure", Keyword::Structure),
    ("condition", Keyword::Condition),
    ("fulfilled", Keyword::Fulfilled),
    ("assertion", Keyword::Assertion),
    ("exception", Keyword::Exception),
    ("initially", Keyword::Initially),
    ("get_month", Keyword::GetMonth),
];

const OF_TEN_LETTERS: [(&str, Keyword); 3] = [
    ("definition", Keyword::Definition),
    ("increasing", Keyword::Increasing),
    ("decreasing", Keyword::Decreasing),
];

const OF_ELEVEN_LETTERS: [(&str, Keyword); 3] = [
    ("declaration", Keyword::Declaration),
    ("enumeration", Keyword::Enumeration),
    ("consequence", Keyword::Consequence),
];

const DOUBLE_KEYWORDS: [(&str, &str, DoubleKeyword); 13] = [
    ("under", "condition", DoubleKeyword::UnderCondition),
    ("depends", "on", DoubleKeyword::DependsOn),
    ("list", "of", DoubleKeyword::ListOf),
    ("for", "all", DoubleKeyword::ForAll),
    ("we", "have", DoubleKeyword::WeHave),
    ("such", "that", DoubleKeyword::SuchThat),
    ("number", "of", DoubleKeyword::NumberOf),
    ("map", "each", DoubleKeyword::MapEach),
    ("combine", "all", DoubleKeyword::CombineAll),
    ("with", "pattern", DoubleKeyword::WithPattern),
    ("date", "round", DoubleKeyword::DateRound),
    ("round", "of", DoubleKeyword::RoundOf),
    ("output", "of", DoubleKeyword::OutputOf),
];

const SYMBOLS: [(&str, Symbol); 21] = [
    (":", Symbol::Colon),
    (".", Symbol::Dot),
    (",", Symbol::Comma),
    (";", Symbol::Semicolon),
    ("(", Symbol::LeftParen),
    (")", Symbol::RightParen),
    ("[", Symbol::LeftBracket),
    ("]", Symbol::RightBracket),
    ("{", Symbol::LeftBrace),
    ("}", Symbol::RightBrace),
    ("+", Symbol::Plus),
    ("-", Symbol::Minus),
    ("--", Symbol::MinusMinus),
    ("*", Symbol::Star),
    ("/", Symbol::Slash),
    ("=", Symbol::Equal),
    ("!=", Symbol::NotEqual),
    ("<", Symbol::Less),
    ("<=", Symbol::LessEqual),
    (">", Symbol::Greater),
    (">=", Symbol::GreaterEqual),
];

/// What the table has for the spelling.
fn look_up<K: Copy>(table: &[(&str, K)], spelling: &[u8]) -> Option<K>
    ensures { result ≡ look_up (spelled table.now) spelling.now }
{
    for &(text, value) in table {
        if spelling == text.as_bytes() {
            return Some(value);
        }
    }
    None
}

fn look_up_pair<K: Copy>(table: &[(&str, &str, K)], first: &str, second: &str) -> Option<K>
    ensures { result ≡ look_up_pair (spelled_pairs table.now) first.now second.now }
{
    for &(one, other, value) in table {
        if first == one && second == other {
            return Some(value);
        }
    }
    None
}

/// The keyword of this spelling, which is sought among those of its length.
pub(crate) fn keyword(word: &str) -> Option<Keyword>
    ensures { result ≡ keyword_of word.now }
{
    let letters = word.as_bytes();
    match letters.len() {
        2 => look_up(&OF_TWO_LETTERS, letters),
        3 => look_up(&OF_THREE_LETTERS, letters),
        4 => look_up(&OF_FOUR_LETTERS, letters),
        5 => look_up(&OF_FIVE_LETTERS, letters),
        6 => look_up(&OF_SIX_LETTERS, letters),
        7 => look_up(&OF_SEVEN_LETTERS, letters),
        8 => look_up(&OF_EIGHT_LETTERS, letters),
        9 => look_up(&OF_NINE_LETTERS, letters),
        10 => look_up(&OF_TEN_LETTERS, letters),
        11 => look_up(&OF_ELEVEN_LETTERS, letters),
        _ => None,
    }
}

fn has_first<K: Copy>(table: &[(&str, &str, K)], word: &str) -> bool
    ensures { result ≡ begins_pair (spelled_pairs table.now) word.now }
{
    for &(one, _, _) in table {
        if word == one {
            return true;
        }
    }
    false
}

/// Whether a double keyword begins with this word.
pub(crate) fn begins_pair(word: &str) -> bool
    ensures { result ≡ begins_pair double_keywords word.now }
{
    has_first(&DOUBLE_KEYWORDS, word)
}

/// The double keyword of these two words.
pub(crate) fn double_keyword(first: &str, second: &str) -> Option<DoubleKeyword>
    ensures { result ≡ double_keyword_of first.now second.now }
{
    look_up_pair(&DOUBLE_KEYWORDS, first, second)
}

/// The symbol of this spelling.
pub(crate) fn symbol(spelling: &[u8]) -> Option<Symbol>
    ensures { result ≡ symbol_of spelling.now }
{
    look_up(&SYMBOLS, spelling)
}
