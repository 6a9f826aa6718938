/// What an operation says for the history before it: who made it, and how many positions the view that it embeds
/// covers (0: none).
#[derive(Clone, Copy, Debug, PartialEq, Eq)]
pub struct Vouch {
    /// The operation's author.
    pub author: u32,
    /// The size of the view that it embeds, in positions.
    pub size: u64,
}
