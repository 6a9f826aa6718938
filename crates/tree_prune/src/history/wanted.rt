ghost use Rattle.std.specs.List.{list_any};
ghost use Rattle.std.specs.Prelude.{◌≡◌, ◌+◌, ◌-◌, ◌<◌, ◌&&◌, ◌||◌, map, nat_le, nat_lt};
ghost use Rattle.tree_prune.specs.LeastHistory.{any, inside, numbered};
ghost use Rattle.tree_prune.specs.Wanted.{is_wanted};

/// What a pruned tree is to show: the positions from `from` on, those listed, and the roots of the listed versions.
#[derive(Drop)]
pub(super) struct Wanted<'a> {
    pub(super) from: u64,
    pub(super) positions: &'a [u64],
    pub(super) versions: &'a [u64],
}

/// Whether one of the numbers is from `start` up to but not including `end`.
fn has_one(numbers: &[u64], start: u64, end: u64) -> bool
    ensures { result ≡ list_any (λ n. nat_le start n && nat_lt n end) numbers.now }
{
    numbers.iter().any(|n| start <= *n && *n < end)
}

impl Wanted<'_> {
    /// Whether a position from `start` up to but not including `end` is shown.
    fn shows(&self, start: u64, end: u64) -> bool
        requires { start < end }
        ensures { result ≡ any (numbered (is_wanted self.now.from self.now.positions.now) start (end - start)) }
    {
        self.from < end || has_one(self.positions, start, end)
    }

    /// Whether a listed version ends within the positions from `start` up to but not including `end`.
    fn parts(&self, start: u64, end: u64) -> bool
        requires { start < end }
        ensures { result ≡ inside (end - start) (map (λ v. v - start) self.now.versions.now) }
    {
        has_one(self.versions, start + 1, end)
    }
    /// Whether the node of height `level` over these positions isn't hidden.
    pub(super) fn enters(&self, level: u32, start: u64, end: u64) -> bool
        requires { start < end }
        ensures { result ≡ (any (numbered (is_wanted self.now.from self.now.positions.now) start (end - start))
            || (nat_lt 0 level && inside (end - start) (map (λ v. v - start) self.now.versions.now))) }
    {
        self.shows(start, end) || (level > 0 && self.parts(start, end))
    }
}
