//! Multipart timestamps.
ghost use Rattle.std.specs.Prelude.{⊤, ◌≡◌, ◌<◌, ◌≤◌, [], ◌∷◌, ◌++◌, length, replicate};
ghost use Rattle.lr_base.specs.Limits.{last_number, most_parts};
ghost use Rattle.lr_base.specs.Stamps.{IsBounded, part, join, meet, stamp_le, set_part};

use crate::limits::MOST_PARTS;
use arrayvec::ArrayVec;
use std::alloc::AllocError;
use std::marker::Model;

/// A multipart timestamp: one part for each replica, and a last one for the order. No call takes memory.
#[derive(Drop)]
pub struct Stamp {
    parts: ArrayVec<u64, MOST_PARTS>,
}

impl Model for Stamp {
    ghost use Rattle.std.specs.Prelude.{List, ℕ};
    ghost use Rattle.lr_base.specs.Stamps.{IsBounded};

    ghost Value = { List ℕ };

    ghost view = { λ it. it.parts.items };

    ghost invariant = { λ it. IsBounded it.parts.items };
}

impl Stamp {
    /// A stamp of this many parts, all of them 0.
    pub fn zero(parts: u8) -> Stamp
        requires some { 2 ≤ parts }
        requires most { parts ≤ most_parts }
        ensures { result ≡ replicate parts 0 }
    {
        let zeros = [0; MOST_PARTS];
        Stamp {
            parts: stored(&zeros[..parts as usize]),
        }
    }

    /// A stamp without parts, to which they are added.
    pub fn none() -> Stamp
        ensures { result ≡ [] }
    {
        Stamp {
            parts: ArrayVec::new(),
        }
    }

    /// The law that no part is above the last number.
    pub fn keeps(&self)
        ensures { IsBounded self.now }
    {
        let _ = &self.parts;
    }

    /// Adds a part behind the others.
    pub fn push(&mut self, number: u64)
        requires room { length self.old < most_parts }
        requires number { number ≤ last_number }
        ensures { self.new ≡ self.old ++ number ∷ [] }
    {
        self.parts.push(number);
    }

    /// How many parts it has.
    pub fn parts(&self) -> u8
        ensures { result ≡ length self.now }
    {
        self.parts.len() as u8
    }

    /// The parts, as a slice.
    pub fn as_slice(&self) -> &[u64]
        ensures { result.now ≡ self.now }
    {
        self.parts.as_slice()
    }

    /// A stamp equal to this one.
    pub fn copy(&self) -> Stamp
        ensures { result ≡ self.now }
    {
        Stamp {
            parts: stored(self.parts.as_slice()),
        }
    }

    /// The part at a place.
    pub fn part(&self, place: u8) -> u64
        requires { place < length self.now }
        ensures { result ≡ part self.now place }
    {
        self.parts[place as usize]
    }

    /// Writes the part at a place.
    pub fn set_part(&mut self, place: u8, number: u64)
        requires place { place < length self.old }
        requires number { number ≤ last_number }
        ensures set { self.new ≡ set_part self.old place number }
        ensures parts { length self.new ≡ length self.old }
    {
        self.parts[place as usize] = number;
    }

    /// Takes the greater of each pair of parts.
    pub fn join(&mut self, other: &Stamp)
        requires { length self.old ≡ length other.now }
        ensures joined { self.new ≡ join self.old other.now }
        ensures parts { length self.new ≡ length self.old }
    {
        raise(self.parts.as_mut_slice(), other.parts.as_slice());
    }

    /// Takes the lesser of each pair of parts.
    pub fn meet(&mut self, other: &Stamp)
        requires { length self.old ≡ length other.now }
        ensures met { self.new ≡ meet self.old other.now }
        ensures parts { length self.new ≡ length self.old }
    {
        lower(self.parts.as_mut_slice(), other.parts.as_slice());
    }

    /// Whether each part is at most its counterpart.
    pub fn le(&self, other: &Stamp) -> bool
        requires { length self.now ≡ length other.now }
        ensures { result ≡ stamp_le self.now other.now }
    {
        is_at_most(self.parts.as_slice(), other.parts.as_slice())
    }
}

impl Clone for Stamp {
    ghost is_clone = { λ stamp cloned. cloned ≡ stamp };

    ghost is_infallible = { λ _. ⊤ };

    fn clone(&self) -> Result<Self, AllocError> {
        Ok(self.copy())
    }
}

impl Default for Stamp {
    ghost is_default = { λ stamp. stamp ≡ [] };

    /// The stamp without parts, as containers fill their free places.
    fn default() -> Stamp {
        Stamp::none()
    }
}

// These parts, copied at once.
fn stored(parts: &[u64]) -> ArrayVec<u64, MOST_PARTS>
    requires { length parts.now ≤ most_parts }
    ensures { result.items ≡ parts.now }
{
    let mut items = ArrayVec::new();
    let _all_fit = items.try_extend_from_slice(parts);
    items
}

fn raise(own: &mut [u64], other: &[u64])
    requires { length own.old ≡ length other.now }
    ensures { own.new ≡ join own.old other.now }
{
    for i in 0..own.len() {
        if own[i] < other[i] {
            own[i] = other[i];
        }
    }
}

fn lower(own: &mut [u64], other: &[u64])
    requires { length own.old ≡ length other.now }
    ensures { own.new ≡ meet own.old other.now }
{
    for i in 0..own.len() {
        if other[i] < own[i] {
            own[i] = other[i];
        }
    }
}

fn is_at_most(own: &[u64], other: &[u64]) -> bool
    requires { length own.now ≡ length other.now }
    ensures { result ≡ stamp_le own.now other.now }
{
    for i in 0..own.len() {
        if other[i] < own[i] {
            return false;
        }
    }
    true
}

#[cfg(test)]
mod tests;
