ghost use Rattle.std.specs.Prelude.{◌≡◌, ◌^◌, ◌<◌};
ghost use Rattle.lms_params.specs.Parameters.{IsListed};
ghost use Rattle.lms_tree.specs.Signer.{public_of, signature_at};
ghost use Rattle.lms_tree.specs.Valid.{Valid};

use lms_ots::Dig;
use lms_params::Pair;

/// The law of signing: the signature of each leaf of a seed's tree is valid under the seed's public
/// key, at each height of the tables.
pub fn signing_law(private: &Dig, id: &[u8; 16], pair: Pair, index: u32, message: &[u8])
    requires listed { IsListed pair }
    requires leaf { index < 2 ^ pair.lms.h }
    ensures { Valid (public_of private.now id.now pair) message.now
        (signature_at private.now id.now pair index message.now) }
{}
