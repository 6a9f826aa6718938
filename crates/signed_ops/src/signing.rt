ghost use Rattle.std.specs.Prelude.{◌≡◌, ◌↔◌, ◌^◌, IfOk, OnOk, OnErr};
ghost use Rattle.fr_bytes.specs.Parts.{IsLimited};
ghost use Rattle.op_types.specs.Spelling.{IsOp};
ghost use Rattle.op_types.specs.declared.limits.TheConstants.{SIGNATURE_BYTES_MAX};
ghost use Rattle.signed_ops.specs.Signed.{once_more, signed_by, with_sig};

use fr_bytes::Bytes;
use lms_tree::{SignRefusal, Signer};
use op_types::{Op, laws, op_message};
use std::alloc::Global;

/// Signs an operation with the signer's next leaf: the answer is the operation with that signature.
///
/// # Errors
/// `Spent` only where no leaf is left; `NoMemory`. After either the signer is as before.
pub fn sign_op(alloc: Global, signer: &mut Signer, op: Op) -> Result<Op, SignRefusal>
    requires { IsOp op }
    ensures signed { IfOk result (λ signed. signed ≡ signed_by signer.old op) }
    ensures is_op { IfOk result IsOp }
    ensures used { OnOk result (signer.new ≡ once_more signer.old) }
    ensures spent { result ≡ Err SignRefusal.Spent → signer.old.used ≡ 2 ^ signer.old.pair.lms.h }
    ensures unchanged { OnErr result (signer.new ≡ signer.old) }
{
    let sig = sign_message(alloc, signer, &op)?;
    Ok(Op { sig, ..op })
}

#[tactic(auto, unfolding(crate::specs::Signed::signed_by))]
fn sign_message(alloc: Global, signer: &mut Signer, op: &Op) -> Result<Bytes, SignRefusal>
    requires { IsOp op.now }
    ensures signed { IfOk result (λ sig. signed_by signer.old op.now ≡ with_sig op.now sig) }
    ensures short { IfOk result (λ sig. IsLimited SIGNATURE_BYTES_MAX sig) }
    ensures used { OnOk result (signer.new ≡ once_more signer.old) }
    ensures spent { result ≡ Err SignRefusal.Spent → signer.old.used ≡ 2 ^ signer.old.pair.lms.h }
    ensures unchanged { OnErr result (signer.new ≡ signer.old) }
{
    let Ok(message) = op_message(alloc, op) else {
        return Err(SignRefusal::NoMemory);
    };
    // It brings to the proof that no more leaves are used than there are.
    signer.left();
    let sig = signer.sign(message.as_slice())?;
    // And this, that a signature's elements are bytes.
    laws::slices_of_bytes(sig.as_slice());
    Ok(sig)
}
