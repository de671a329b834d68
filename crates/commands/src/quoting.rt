//! Texts of somebody else's, as they are shown to people.

ghost use Rattle.std.specs.Prelude.{◌≡◌};
ghost use Rattle.commands.specs.Quoting.{has_hidden, is_hidden};

use std::fmt;

/// A text of somebody else's, such as a path, that prints as it is; in quotes if it has a character
/// that no reader sees.
#[derive(Clone, Copy, Debug)]
pub struct Visible<'a> {
    pub text: &'a str,
}

impl<'a> Visible<'a> {
    /// Creates what shows the text.
    pub fn of(text: &'a str) -> Visible<'a>
        ensures { result.text.now ≡ text.now }
    {
        Visible { text }
    }
}

impl fmt::Display for Visible<'_> {
    ghost use Rattle.std.specs.Prelude.{Some};
    ghost use Rattle.commands.specs.Quoting.{visible_text};

    ghost output = { λ visible. Some (visible_text visible.text.now) };

    fn fmt<W: fmt::Write>(&self, f: &mut fmt::Formatter<W>) -> fmt::Result {
        if !has_hidden(self.text) {
            return f.write_str(self.text);
        }
        let quoted = Quoted { text: self.text };
        write!(f, "{quoted}")
    }
}

/// A text that prints in quotes, with an escape for each character that no reader sees.
#[derive(Clone, Copy, Debug)]
pub struct Quoted<'a> {
    pub text: &'a str,
}

impl fmt::Display for Quoted<'_> {
    ghost use Rattle.std.specs.Prelude.{Some};
    ghost use Rattle.commands.specs.Quoting.{quoted_text};

    ghost output = { λ quoted. Some (quoted_text quoted.text.now) };

    fn fmt<W: fmt::Write>(&self, f: &mut fmt::Formatter<W>) -> fmt::Result {
        let escaped = Escaped { text: self.text };
        write!(f, "\"{escaped}\"")
    }
}

/// A text that prints as it stands between quotes.
#[derive(Clone, Copy)]
struct Escaped<'a> {
    text: &'a str,
}

impl Escaped<'_> {
    /// Returns the text.
    fn as_text(&self) -> &str
        ensures { result.now ≡ self.now.text.now }
    {
        self.text
    }
}

impl fmt::Display for Escaped<'_> {
    ghost use Rattle.std.specs.Prelude.{Some};
    ghost use Rattle.std.specs.List.{flat_map};
    ghost use Rattle.std.specs.Str.{chars};
    ghost use Rattle.commands.specs.Quoting.{char_text};

    ghost output = { λ escaped. Some (flat_map char_text (chars escaped.text.now)) };

    fn fmt<W: fmt::Write>(&self, f: &mut fmt::Formatter<W>) -> fmt::Result {
        let text = self.as_text();
        for character in text.chars() {
            let escaped = EscapedChar { character };
            write!(f, "{escaped}")?;
        }
        Ok(())
    }
}

/// A character that prints as it stands between quotes.
#[derive(Clone, Copy)]
struct EscapedChar {
    character: char,
}

impl fmt::Display for EscapedChar {
    ghost use Rattle.std.specs.Prelude.{Some};
    ghost use Rattle.commands.specs.Quoting.{char_text};

    ghost output = { λ escaped. Some (char_text escaped.character) };

    fn fmt<W: fmt::Write>(&self, f: &mut fmt::Formatter<W>) -> fmt::Result {
        let character = self.character;
        if is_hidden(character) {
            let hidden = Hidden {
                code: character as u32,
            };
            return write!(f, "{hidden}");
        }
        if character == '"' || character == '\\' {
            return write!(f, "\\{character}");
        }
        f.write_char(character)
    }
}

/// A character that no reader sees, and that prints as an escape.
#[derive(Clone, Copy)]
struct Hidden {
    code: u32,
}

impl fmt::Display for Hidden {
    ghost use Rattle.std.specs.Prelude.{Some};
    ghost use Rattle.commands.specs.Quoting.{hidden_text};

    ghost output = { λ hidden. Some (hidden_text hidden.code) };

    fn fmt<W: fmt::Write>(&self, f: &mut fmt::Formatter<W>) -> fmt::Result {
        let code = self.code;
        if code == 9 {
            return f.write_str("\\t");
        }
        if code == 10 {
            return f.write_str("\\n");
        }
        if code == 13 {
            return f.write_str("\\r");
        }
        write!(f, "\\u{{{code:x}}}")
    }
}

/// Returns `true` if the text has a character that no reader sees.
pub fn has_hidden(text: &str) -> bool
    ensures { result ≡ has_hidden text.now }
{
    text.chars().any(|character| is_hidden(character))
}

/// Returns `true` if no reader sees the character: a control, a separator of lines, or one that
/// turns the direction of what follows.
fn is_hidden(character: char) -> bool
    ensures { result ≡ is_hidden character }
{
    let code = character as u32;
    code < 32
        || (code > 126 && code < 160)
        || code == 0x61C
        || (code > 0x200D && code < 0x2010)
        || (code > 0x2027 && code < 0x202F)
        || (code > 0x2065 && code < 0x206A)
}
