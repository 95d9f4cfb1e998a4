//! Classes of bytes that the weaver and the lexer share.
ghost use Rattle.std.specs.Prelude.{◌≡◌};
ghost use Rattle.cat_pos.specs.Bytes.{is_blank};

/// A space or a tab.
pub fn is_blank(byte: u8) -> bool
    ensures { result ≡ is_blank byte }
{
    matches!(byte, b' ' | b'\t')
}
