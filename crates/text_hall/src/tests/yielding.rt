use fr_digest::{Dig, Digester};
use std::marker::PhantomData;
use std::thread;

/// A digest that lets other threads run before it answers. A hall computes it in the midst of its step: a
/// lock that excludes nobody then loses texts.
pub struct Yielding<D> {
    digester: PhantomData<D>,
}

impl<D: Digester> Digester for Yielding<D> {
    ghost digest_of = { D.digest_of };

    ghost has_length = { D.has_length };

    fn digest(bytes: &[u8]) -> Dig {
        D::digest(bytes)
    }

    fn tagged(tag: u8, a: &[u8], b: &[u8]) -> Dig {
        let digest = D::tagged(tag, a, b);
        thread::yield_now();
        digest
    }
}
