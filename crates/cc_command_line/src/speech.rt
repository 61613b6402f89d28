//! What a node speaks to other nodes.

/// What a node speaks to other nodes.
#[derive(Clone, Copy, PartialEq, Eq)]
pub enum Speech {
    /// What programs up to 0.1 understand: it greets nobody, and the answers to an operation go to all nodes.
    Before,
    /// What this program understands: it greets, and the answers to an operation go to the node alone that asked.
    Now,
}

impl Speech {
    /// The speech that a word names: `0.1` or `now`. None for any other word.
    pub fn named(word: &str) -> Option<Self> {
        match word {
            "0.1" => Some(Speech::Before),
            "now" => Some(Speech::Now),
            _ => None,
        }
    }

    /// Whether it is that of programs up to 0.1.
    pub fn is_before(self) -> bool {
        self == Speech::Before
    }
}
