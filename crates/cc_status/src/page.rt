//! The pages, and where each one is.

ghost use Rattle.std.specs.Prelude.{◌≡◌, ◌≢◌, IfSome, IfNone};
ghost use Rattle.cc_status.specs.Pages.{path_of};

/// A page of a node's status.
#[derive(Clone, Copy, PartialEq, Eq)]
pub enum Page {
    /// The page that people look at.
    Home,
    /// What a node tells of itself, as JSON.
    Status,
    /// The view alone, as JSON.
    View,
    /// The rows of the view as they change, as a stream of events.
    Changes,
    /// Counts and times for Prometheus.
    Metrics,
    /// Whether the node runs.
    Health,
    /// Whether the node serves.
    Ready,
}

const PAGES: [Page; 7] = [
    Page::Home,
    Page::Status,
    Page::View,
    Page::Changes,
    Page::Metrics,
    Page::Health,
    Page::Ready,
];

impl Page {
    /// Its path.
    pub fn path(self) -> &'static [u8]
        ensures { result.now ≡ path_of self }
    {
        match self {
            Page::Home => b"/",
            Page::Status => b"/status.json",
            Page::View => b"/view",
            Page::Changes => b"/view/changes",
            Page::Metrics => b"/metrics",
            Page::Health => b"/healthz",
            Page::Ready => b"/readyz",
        }
    }

    /// The page at that path, and none elsewhere.
    pub fn at(path: &[u8]) -> Option<Page>
        ensures found { IfSome result (λ page. path.now ≡ path_of page) }
        ensures none { IfNone result ((page : Page) → path.now ≢ path_of page) }
    {
        for page in PAGES {
            if page.path() == path {
                return Some(page);
            }
        }
        None
    }
}
