//! The laws of padding. Each function has an empty body, and its contract is the law.

ghost use Rattle.fr_bytes.specs.Bytes.{Text};
ghost use Rattle.pad_wrap.specs.Pad.{padded};
ghost use Rattle.std.specs.Prelude.{◌≡◌, ℕ, length};

/// What is padded twice under one key and one stream number is as it was, and padding keeps the length.
pub fn pads()
    ensures undone { (key : Text) (stream : ℕ) (text : Text) → padded key stream (padded key stream text) ≡ text }
    ensures size { (key : Text) (stream : ℕ) (text : Text) → length (padded key stream text) ≡ length text }
{}
