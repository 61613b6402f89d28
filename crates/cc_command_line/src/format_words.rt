//! The words of `format`.

/// The words of `format` behind its folder, as they are given. None for an option that isn't.
#[derive(Clone, Copy)]
pub struct FormatWords<'a> {
    pub id: &'a str,
    pub initial: Option<&'a str>,
    pub contacts: Option<&'a str>,
    pub beta: Option<&'a str>,
    pub gamma: Option<&'a str>,
    pub share: Option<&'a str>,
    pub cluster: Option<&'a str>,
}
