//! What is shown of texts tells them apart. The function has an empty body, and its contract is the law.

ghost use Rattle.std.specs.Prelude.{◌≡◌, ℕ, List};
ghost use Rattle.base64.specs.GeneralPurpose.{IsBytes};
ghost use Rattle.cc_status.specs.ShownNodes.{text_told};

/// Texts of which the same is told are the same, whatever their bytes.
pub fn texts_are_told_apart()
    ensures { (a b : List ℕ) → IsBytes a → IsBytes b → text_told a ≡ text_told b → a ≡ b }
{}
