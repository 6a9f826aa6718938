ghost use Rattle.std.specs.Prelude.{◌≡◌};
ghost use Rattle.op_types.specs.Roles.{may_be_given, may_write};

/// The role of a user who may read.
pub const READER: u8 = 1;

/// The role of a user who may also write.
pub const WRITER: u8 = 2;

/// The role of the wall's owner, who may also change the access list.
pub const OWNER: u8 = 3;

/// Whether a user of this role may add operations to a wall.
pub fn may_write(role: u8) -> bool
    ensures { result ≡ may_write role }
{
    role == WRITER || role == OWNER
}

/// Whether an admission may give this role: a reader's or a writer's.
pub fn may_be_given(role: u8) -> bool
    ensures { result ≡ may_be_given role }
{
    role == READER || role == WRITER
}
