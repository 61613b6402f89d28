//! Texts that come from elsewhere, as a terminal may be sent them.

use std::fmt;

/// A text in which a terminal finds no command: each control character and each mark that turns the direction of writing
/// stands as `\u` and four hexadecimal digits.
#[derive(Clone, Copy)]
pub struct Harmless<'a>(pub &'a str);

impl fmt::Display for Harmless<'_> {
    fn fmt<W: fmt::Write>(&self, f: &mut fmt::Formatter<W>) -> fmt::Result {
        for character in self.0.chars() {
            write_harmless(f, character)?;
        }
        Ok(())
    }
}

/// The same between quotation marks: a quotation mark and a backslash of the text stand behind a backslash.
#[derive(Clone, Copy)]
pub struct Quoted<'a>(pub &'a str);

impl fmt::Display for Quoted<'_> {
    fn fmt<W: fmt::Write>(&self, f: &mut fmt::Formatter<W>) -> fmt::Result {
        f.write_char('"')?;
        for character in self.0.chars() {
            if matches!(character, '"' | '\\') {
                f.write_char('\\')?;
            }
            write_harmless(f, character)?;
        }
        f.write_char('"')
    }
}

/// The same of JSON that was read, in a line: it says what it said. A line end or a tab can only stand between its values,
/// and becomes a blank.
#[derive(Clone, Copy)]
pub struct HarmlessJson<'a>(pub &'a str);

impl fmt::Display for HarmlessJson<'_> {
    fn fmt<W: fmt::Write>(&self, f: &mut fmt::Formatter<W>) -> fmt::Result {
        for character in self.0.chars() {
            match character {
                '\t' | '\n' | '\r' => f.write_char(' ')?,
                character => write_harmless(f, character)?,
            }
        }
        Ok(())
    }
}

fn write_harmless<W: fmt::Write>(f: &mut fmt::Formatter<W>, character: char) -> fmt::Result {
    if is_command(character) {
        write!(f, "\\u{:04x}", character as u32)
    } else {
        f.write_char(character)
    }
}

// Whether it is a control character, or a mark that turns the direction of writing.
fn is_command(character: char) -> bool {
    matches!(
        character,
        '\u{0}'..='\u{1f}'
            | '\u{7f}'..='\u{9f}'
            | '\u{61c}'
            | '\u{200e}'..='\u{200f}'
            | '\u{202a}'..='\u{202e}'
            | '\u{2066}'..='\u{2069}'
    )
}
