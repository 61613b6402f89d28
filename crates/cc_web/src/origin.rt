//! Whether a write comes from a page of another origin.

ghost use Rattle.std.specs.Prelude.{◌≡◌};
ghost use Rattle.std.specs.Option.{option_copied};
ghost use Rattle.cc_web.specs.Origins.{is_allowed, is_foreign};

/// Whether the request comes from a page of the allowed origin.
#[tactic(auto, unfolding(crate::specs::Origins::is_allowed))]
pub(crate) fn is_allowed(allowed: Option<&[u8]>, origin: Option<&[u8]>) -> bool
    ensures { result ≡ is_allowed (option_copied allowed.entry) (option_copied origin.entry) }
{
    match (allowed, origin) {
        (Some(allowed), Some(origin)) => allowed == origin,
        _ => false,
    }
}

/// Whether a browser sent it for a page of another origin. Over plain HTTP many browsers leave `Sec-Fetch-Site` out.
#[tactic(auto, unfolding(crate::specs::Origins::is_foreign))]
pub(crate) fn is_foreign(origin: Option<&[u8]>, site: Option<&[u8]>) -> bool
    ensures { result ≡ is_foreign (option_copied origin.entry) (option_copied site.entry) }
{
    match site {
        Some(site) => site == b"cross-site".as_slice() || site == b"same-site".as_slice(),
        None => origin.is_some(),
    }
}
