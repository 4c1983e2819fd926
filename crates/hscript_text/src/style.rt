//! How words are written, and what begins between them.
ghost use Rattle.std.specs.Prelude.{◌≡◌, IsTrue, IsFalse, ◌<◌};
ghost use Rattle.hscript_text.specs.Pieces.{is_plain};
ghost use Rattle.hscript_text.specs.Words.{is_script_blank, is_bare, style_of, opening_of};

/// How a word is written: as it stands, in single quotes or in double quotes.
#[derive(Clone, Copy)]
pub enum Style {
    Bare,
    Single,
    Double,
}

/// What a byte begins between words.
#[derive(Clone, Copy)]
pub enum Opening {
    Blank,
    LineEnd,
    Word(Style),
}

impl Style {
    /// Whether a byte in a word of this style stands for itself.
    pub fn is_plain(self, b: u8) -> bool
        ensures { result ≡ is_plain self b }
    {
        match self {
            Style::Bare => b != b'$',
            Style::Single => true,
            Style::Double => b != b'$' && b != b'\\',
        }
    }
}

/// Whether a byte is a blank of command files: a space, tab or CR.
pub fn is_script_blank(b: u8) -> bool
    ensures { result ≡ is_script_blank b }
{
    b == b' ' || b == b'\t' || b == b'\r'
}

/// Whether a bare word has such a byte.
pub fn is_bare(b: u8) -> bool
    ensures { result ≡ is_bare b }
{
    !(is_script_blank(b) || b == b'\n' || b == b'\'' || b == b'"')
}

fn style_of(b: u8) -> Style
    ensures { result ≡ style_of b }
{
    match b {
        b'\'' => Style::Single,
        b'"' => Style::Double,
        _ => Style::Bare,
    }
}

/// What this byte begins between words.
pub fn opening_of(b: u8) -> Opening
    ensures { result ≡ opening_of b }
{
    if is_script_blank(b) {
        Opening::Blank
    } else if b == b'\n' {
        Opening::LineEnd
    } else {
        Opening::Word(style_of(b))
    }
}
