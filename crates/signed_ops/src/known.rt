ghost use Rattle.std.specs.Prelude.{◌≡◌, IfOk};

use fr_bytes::NoMemory;
use lms_tree::UserKeys;

/// What everybody knows of a wall.
#[derive(Debug, Drop)]
pub struct Known {
    /// The number of the wall.
    pub wall: u32,
    /// The number of the user who owns it.
    pub owner: u32,
    /// The public keys of the listed users, the users rising.
    pub keys: UserKeys,
}

impl Known {
    /// The same, in memory of the same allocator.
    pub fn copy(&self) -> Result<Known, NoMemory>
        ensures { IfOk result (λ k. k ≡ self.now) }
    {
        Ok(Known {
            wall: self.wall,
            owner: self.owner,
            keys: self.keys.copy()?,
        })
    }
}
