//! The numbers by which a reply tells why nothing was done.
ghost use Rattle.std.specs.Prelude.{◌≡◌};
ghost use Rattle.msg_form.specs.Causes.{greatest_detail};

/// The wall isn't one of the server's, or the operation isn't of the asked wall.
pub const WRONG_WALL: u8 = 1;

/// The author may not do what the operation does.
pub const NOT_ALLOWED: u8 = 2;

/// The operation was made at another epoch; the detail is the wall's.
pub const STALE_EPOCH: u8 = 3;

/// The operation's number is below its author's next one; the detail is the next one.
pub const REPLAYED: u8 = 4;

/// The operation changes the access list against the law.
pub const BAD_CHANGE: u8 = 5;

/// The operation embeds a view of more positions than there are.
pub const LATE_VIEW: u8 = 6;

/// The operation isn't signed by its author.
pub const BAD_SIGNATURE: u8 = 7;

/// The operation embeds a view that the server never signed.
pub const BAD_VIEW: u8 = 8;

/// The wall has no room.
pub const FULL: u8 = 9;

/// The request can't be read, or asks for what can't be shown.
pub const BAD_REQUEST: u8 = 10;

/// The greatest detail that a cause may have: only two causes have one, and with the others it is 0.
pub(crate) fn greatest_detail(cause: u8) -> u64
    ensures { result ≡ greatest_detail cause }
{
    match cause {
        STALE_EPOCH | REPLAYED => u64::MAX,
        _ => 0,
    }
}
