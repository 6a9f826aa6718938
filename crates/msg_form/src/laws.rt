//! The laws of the spellings. Each function has an empty body, and its contract is the law.
ghost use Rattle.std.specs.Prelude.{◌≡◌, ◌↔◌, ℕ, List, Some};
ghost use Rattle.fr_bytes.specs.Bytes.{IsBytes};
ghost use Rattle.msg_form.specs.Messages.{SpellsReply, SpellsRequest, reply_of};
ghost use Rattle.msg_form.specs.declared.message.Reply.{Reply};
ghost use Rattle.msg_form.specs.declared.message.Request.{Request};

/// No bytes spell two requests, and no request has two spellings.
pub fn one_spelling_of_requests()
    ensures one_value { (x y : Request) (bytes : List ℕ) → SpellsRequest x bytes → SpellsRequest y bytes → x ≡ y }
    ensures one_text { (x : Request) (a b : List ℕ) → SpellsRequest x a → SpellsRequest x b → a ≡ b }
{}

/// No bytes spell two replies, and no reply has two spellings.
pub fn one_spelling_of_replies()
    ensures one_value { (x y : Reply) (bytes : List ℕ) → SpellsReply x bytes → SpellsReply y bytes → x ≡ y }
    ensures one_text { (x : Reply) (a b : List ℕ) → SpellsReply x a → SpellsReply x b → a ≡ b }
{}

/// What is read off bytes is the reply that they spell.
pub fn replies()
    ensures { (x : Reply) (bytes : List ℕ) → IsBytes bytes → (reply_of bytes ≡ Some x) ↔ SpellsReply x bytes }
{}
