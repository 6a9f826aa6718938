ghost use Rattle.std.specs.Prelude.{◌≡◌, ◌++◌, ◌∷◌, [], ◌<◌, length, IfOk, OnOk, OnErr, IsErr, ◌↔◌};
ghost use Rattle.std.specs.Int.{w16, w32, w64, to_be_bytes};
ghost use Rattle.fr_bytes.specs.Reading.{Moves, byte_at, piece_at, number_at, counted_at};
ghost use Rattle.fr_bytes.specs.Parts.{byte_within_at, number_within_at};

use super::refusals::{OutsideRange, TooFew};
use std::marker::Model;

/// A place in a list of bytes, from which numbers and pieces are read one after the other.
///
/// Contracts see it as the list of the bytes that are left. A read that finds too few bytes, or a value
/// outside its range, leaves it where it was. No call takes memory.
#[derive(Debug, Drop)]
pub struct Cur<'a> {
    rest: &'a [u8],
}

impl<'a> Model for Cur<'a> {
    ghost use Rattle.std.specs.Prelude.{List, ℕ};

    ghost Value = { List ℕ };

    ghost view = { λ c. c.rest.now };
}

impl<'a> Cur<'a> {
    /// A cursor before the first of `bytes`.
    pub fn new(bytes: &'a [u8]) -> Cur<'a>
        ensures { result ≡ bytes.now }
    {
        Cur { rest: bytes }
    }

    /// How many bytes are left.
    pub fn left(&self) -> usize
        ensures { result ≡ length self.now }
    {
        self.rest.len()
    }

    /// The next `n` bytes. `TooFew` comes exactly where fewer are left.
    pub fn take(&mut self, n: usize) -> Result<&'a [u8], TooFew>
        ensures read { IfOk result (λ x. (length x.now ≡ n) × (self.old ≡ x.now ++ self.new)) }
        ensures too_few { IsErr result ↔ (length self.old < n) }
        ensures stays { OnErr result (self.new ≡ self.old) }
        ensures reads { Moves (λ x. x.now) result self.old self.new (piece_at n self.old) }
    {
        if self.rest.len() < n {
            return Err(TooFew);
        }
        let (taken, rest) = self.rest.split_at(n);
        self.rest = rest;
        Ok(taken)
    }

    /// The next byte. `TooFew` comes exactly where none is left.
    pub fn u8(&mut self) -> Result<u8, TooFew>
        ensures read { IfOk result (λ x. self.old ≡ x ∷ self.new) }
        ensures too_few { IsErr result ↔ (length self.old < 1) }
        ensures stays { OnErr result (self.new ≡ self.old) }
        ensures reads { Moves (λ x. x) result self.old self.new (byte_at self.old) }
    {
        let taken = self.take(1)?;
        Ok(taken[0])
    }

    /// The big-endian number of the next two bytes. `TooFew` comes exactly where fewer are left.
    pub fn u16(&mut self) -> Result<u16, TooFew>
        ensures read { IfOk result (λ x. self.old ≡ to_be_bytes w16 x ++ self.new) }
        ensures too_few { IsErr result ↔ (length self.old < 2) }
        ensures stays { OnErr result (self.new ≡ self.old) }
        ensures reads { Moves (λ x. x) result self.old self.new (number_at w16 self.old) }
    {
        let taken = self.take(2)?;
        Ok(u16::from_be_bytes([taken[0], taken[1]]))
    }

    /// The big-endian number of the next four bytes. `TooFew` comes exactly where fewer are left.
    pub fn u32(&mut self) -> Result<u32, TooFew>
        ensures read { IfOk result (λ x. self.old ≡ to_be_bytes w32 x ++ self.new) }
        ensures too_few { IsErr result ↔ (length self.old < 4) }
        ensures stays { OnErr result (self.new ≡ self.old) }
        ensures reads { Moves (λ x. x) result self.old self.new (number_at w32 self.old) }
    {
        let taken = self.take(4)?;
        Ok(u32::from_be_bytes([taken[0], taken[1], taken[2], taken[3]]))
    }

    /// The big-endian number of the next eight bytes. `TooFew` comes exactly where fewer are left.
    pub fn u64(&mut self) -> Result<u64, TooFew>
        ensures read { IfOk result (λ x. self.old ≡ to_be_bytes w64 x ++ self.new) }
        ensures too_few { IsErr result ↔ (length self.old < 8) }
        ensures stays { OnErr result (self.new ≡ self.old) }
        ensures reads { Moves (λ x. x) result self.old self.new (number_at w64 self.old) }
    {
        let taken = self.take(8)?;
        Ok(u64::from_be_bytes([
            taken[0], taken[1], taken[2], taken[3], taken[4], taken[5], taken[6], taken[7],
        ]))
    }

    /// The bytes behind their number, which is the next four bytes. `TooFew` comes exactly where fewer
    /// bytes are left.
    #[tactic(auto, unfolding(crate::specs::Reading::counted_at))]
    pub fn counted(&mut self) -> Result<&'a [u8], TooFew>
        ensures stays { OnErr result (self.new ≡ self.old) }
        ensures reads { Moves (λ x. x.now) result self.old self.new (counted_at self.old) }
    {
        let before = self.rest;
        let n = self.u32()?;
        let taken = self.take(n as usize);
        if taken.is_err() {
            self.rest = before;
        }
        taken
    }

    /// The next byte, from `low` to `high`. `OutsideRange` comes exactly where it is another or none is
    /// left.
    #[tactic(auto, unfolding(crate::specs::Parts::byte_within_at))]
    pub fn u8_within(&mut self, low: u8, high: u8) -> Result<u8, OutsideRange>
        ensures reads { Moves (λ x. x) result self.old self.new (byte_within_at low high self.old) }
    {
        let before = self.rest;
        let x = self.u8()?;
        if x < low || high < x {
            self.rest = before;
            return Err(OutsideRange);
        }
        Ok(x)
    }

    /// The big-endian number of the next four bytes, from `low` to `high`. `OutsideRange` comes exactly
    /// where it is another or fewer bytes are left.
    #[tactic(auto, unfolding(crate::specs::Parts::number_within_at))]
    pub fn u32_within(&mut self, low: u32, high: u32) -> Result<u32, OutsideRange>
        ensures reads { Moves (λ x. x) result self.old self.new (number_within_at w32 low high self.old) }
    {
        let before = self.rest;
        let x = self.u32()?;
        if x < low || high < x {
            self.rest = before;
            return Err(OutsideRange);
        }
        Ok(x)
    }

    /// The big-endian number of the next eight bytes, from `low` to `high`. `OutsideRange` comes exactly
    /// where it is another or fewer bytes are left.
    #[tactic(auto, unfolding(crate::specs::Parts::number_within_at))]
    pub fn u64_within(&mut self, low: u64, high: u64) -> Result<u64, OutsideRange>
        ensures reads { Moves (λ x. x) result self.old self.new (number_within_at w64 low high self.old) }
    {
        let before = self.rest;
        let x = self.u64()?;
        if x < low || high < x {
            self.rest = before;
            return Err(OutsideRange);
        }
        Ok(x)
    }
}
