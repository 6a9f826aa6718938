use check_rules::Asked;
use fr_bytes::Bytes;
use op_types::Op;

/// What a client sends to its server.
#[derive(Debug, Drop)]
pub struct Sent {
    /// The bytes of the request.
    pub request: Bytes,
    /// The wall that it is of.
    pub wall: u32,
    /// What the reply will be to.
    pub asked: Asked,
    /// The operation that the client signed for it.
    pub signed: Option<Op>,
}
