ghost use Rattle.std.specs.Prelude.{◌≡◌, ◌↔◌, IsTrue};
ghost use Rattle.lms_tree.specs.Valid.{Valid};
ghost use Rattle.op_types.specs.Spelling.{view_signed};
ghost use Rattle.signed_ops.specs.Signed.{is_view_signed};

use lms_tree::{PublicKey, verify};
use op_types::{View, view_message};

/// Whether a view is signed by its server: its signature is valid under the server's key, over the view's message (RFC
/// 8554, section 5.4.2). A view of nothing has no signature, and isn't signed. Takes no memory.
#[tactic(auto, unfolding(crate::specs::Signed::is_view_signed))]
pub fn is_view_signed(key: &PublicKey, view: &View) -> bool
    ensures decided { result ≡ is_view_signed key.now view.now }
    ensures valid { IsTrue result ↔ Valid key.now (view_signed view.now.wall view.now.size view.now.root) view.now.sig }
{
    let message = view_message(view.wall, view.size, &view.root);
    verify(key, &message, view.sig.as_slice())
}
