//! A site that is handed back with a fault.

/// The site that a call took, and why the call failed.
pub struct Back<S, F> {
    pub site: S,
    pub fault: F,
}
