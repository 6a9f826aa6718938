//! Views that a server signs.
ghost use Rattle.std.specs.Prelude.{◌≡◌, ◌<◌, ◌^◌, IfOk, OnOk, OnErr};
ghost use Rattle.fr_bytes.specs.Parts.{IsLimited};
ghost use Rattle.lms_tree.specs.Signer.{public_of};
ghost use Rattle.lms_tree.specs.Valid.{Valid};
ghost use Rattle.op_types.specs.Spelling as spelling;
ghost use Rattle.op_types.specs.Spelling.{IsDig, view_signed};
ghost use Rattle.op_types.specs.declared.limits.TheConstants.{SIGNATURE_BYTES_MAX};
ghost use Rattle.signed_ops.specs.Signed.{once_more};
ghost use Rattle.hall_core.specs.Standing as standing;

use fr_bytes::{Bytes, NoMemory};
use fr_digest::Dig;
use lms_tree::{SignRefusal, Signer};
use op_types::{View, laws, view_message};
use std::alloc::Global;

/// The view of nothing. Takes no memory.
pub(crate) fn no_view(alloc: Global, wall: u32) -> View
    ensures { result ≡ standing.no_view wall }
{
    View {
        wall,
        size: 0,
        root: [0; 32],
        sig: Bytes::of(Vec::new(alloc)),
    }
}

/// A view of a wall that is signed with the signer's next leaf. On want of memory the signer is as before.
pub(crate) fn sign_view(
    signer: &mut Signer,
    wall: u32,
    size: u64,
    root: &Dig,
) -> Result<View, NoMemory>
    requires { signer.old.used < 2 ^ signer.old.pair.lms.h }
    ensures value { IfOk result (λ view. (view.wall ≡ wall) × (view.size ≡ size) × (view.root ≡ root.now)) }
    ensures root { IfOk result (λ view. IsDig view.root) }
    ensures valid { IfOk result (λ view. Valid (public_of signer.old.private signer.old.id signer.old.pair)
        (view_signed wall size root.now) view.sig) }
    ensures short { IfOk result (λ view. IsLimited SIGNATURE_BYTES_MAX view.sig) }
    ensures used { OnOk result (signer.new ≡ once_more signer.old) }
    ensures unchanged { OnErr result (signer.new ≡ signer.old) }
{
    let sig = sign(signer, &view_message(wall, size, root))?;
    // It brings to the proof that a root's elements are bytes.
    laws::slices_of_bytes(root);
    Ok(View {
        wall,
        size,
        root: *root,
        sig,
    })
}

// The signature of a message by a signer that has leaves left.
fn sign(signer: &mut Signer, message: &[u8]) -> Result<Bytes, NoMemory>
    requires { signer.old.used < 2 ^ signer.old.pair.lms.h }
    ensures valid { IfOk result (λ sig. Valid (public_of signer.old.private signer.old.id signer.old.pair) message.now
        sig) }
    ensures short { IfOk result (λ sig. IsLimited SIGNATURE_BYTES_MAX sig) }
    ensures used { OnOk result (signer.new ≡ once_more signer.old) }
    ensures unchanged { OnErr result (signer.new ≡ signer.old) }
{
    // It brings to the proof that the signer's pair is one of the tables.
    signer.left();
    match signer.sign(message) {
        Ok(sig) => {
            // And this, that a signature's elements are bytes.
            laws::slices_of_bytes(sig.as_slice());
            Ok(sig)
        }
        Err(SignRefusal::NoMemory) => Err(NoMemory),
        Err(SignRefusal::Spent) => unreachable!(),
    }
}
