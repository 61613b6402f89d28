//! Texts as JSON has them.

ghost use Rattle.std.specs.Prelude.{◌≡◌, IfOk, option_map};
ghost use Rattle.std.specs.String.{string_bytes};
ghost use Rattle.cc_status.specs.Texts.{plain_of, base64_of};

use base64::engine::general_purpose::STANDARD;
use cc_views::{NoMemory, Text};
use std::alloc::Global;

/// A text as JSON has it: as it stands, or its bytes in base64.
#[derive(Drop)]
pub(crate) struct ShownText {
    pub(crate) plain: Option<String>,
    pub(crate) base64: Option<String>,
}

/// A text as it stands where it is UTF-8; else its bytes in base64.
#[tactic(auto, using(crate::proofs::ShownTexts::plain_utf8, crate::proofs::ShownTexts::base64_utf8, crate::proofs::ShownTexts::plain_other, crate::proofs::ShownTexts::base64_other))]
pub(crate) fn shown_text(alloc: Global, text: &Text) -> Result<ShownText, NoMemory>
    ensures plain { IfOk result (λ s. option_map string_bytes s.plain ≡ plain_of text.now) }
    ensures base64 { IfOk result (λ s. option_map string_bytes s.base64 ≡ base64_of text.now) }
{
    match str::from_utf8(text.as_bytes()) {
        Ok(text) => Ok(ShownText {
            plain: Some(String::from_str(alloc, text)?),
            base64: None,
        }),
        Err(_) => Ok(ShownText {
            plain: None,
            base64: Some(STANDARD.encode(alloc, text.as_bytes())?),
        }),
    }
}
