//! The cases of a chapter.

/// A script, or one for each of some lines, and what it has to do.
#[derive(Clone, Copy)]
pub struct Case<'a> {
    pub name: &'a str,
    /// Each of these takes the place of each `@`, in a script of its own. Empty where there is one script.
    pub lines: &'a str,
    pub script: &'a str,
    pub end: End<'a>,
}

/// What stands behind a script.
#[derive(Clone, Copy)]
pub struct End<'a> {
    pub status: u8,
    pub compared: Compared,
    pub prints: &'a str,
}

/// Which lines of all that a script prints are compared with those that stand behind it.
#[derive(Clone, Copy)]
pub enum Compared {
    All,
    Replies,
}

impl<'a> Case<'a> {
    /// The case that begins with its name. None where a heading is missing.
    pub fn parse(part: &'a str) -> Option<Case<'a>> {
        let (name, rest) = part.split_once('\n')?;
        let (head, rest) = rest.split_once("script:\n")?;
        let (script, end) = script_and_end(rest)?;
        Some(Case {
            name,
            lines: lines_in(head),
            script,
            end,
        })
    }
}

// The headings that end a script, and what each says.
const HEADINGS: [(&str, u8, Compared); 3] = [
    ("status 1:\n", 1, Compared::All),
    ("replies:\n", 0, Compared::Replies),
    ("prints:\n", 0, Compared::All),
];

fn script_and_end(text: &str) -> Option<(&str, End<'_>)> {
    for &(heading, status, compared) in &HEADINGS {
        if let Some((script, prints)) = text.split_once(heading) {
            let end = End {
                status,
                compared,
                prints,
            };
            return Some((script, end));
        }
    }
    None
}

// The lines to choose from, without the newline of the last one.
fn lines_in(head: &str) -> &str {
    match head.split_once("each of:\n") {
        Some((_, lines)) => lines.strip_suffix('\n').unwrap_or(lines),
        None => "",
    }
}
