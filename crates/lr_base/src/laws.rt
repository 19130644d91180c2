//! The laws of stamps, over stamps of every count of parts. These functions do nothing: their contracts are the laws.
ghost use Rattle.std.specs.Prelude.{◌≡◌, ◌≢◌, ◌↔◌, ◌<◌, ℕ, max, true, List, length, replicate};
ghost use Rattle.lr_base.specs.Stamps.{part, join, stamp_le, set_part};
ghost use Rattle.lr_base.specs.Lattice.{IsLeastAbove, IsMerge, IsOrder, IsPartwise};

/// Stamps are ordered part by part, with the zero stamps below all others.
pub fn order_of_stamps()
    ensures order { IsOrder stamp_le }
    ensures parts { (a b : List ℕ) → (stamp_le a b ≡ true) ↔ IsPartwise a b }
    ensures zero { (parts : ℕ) (a : List ℕ) → stamp_le (replicate parts 0) a ≡ true }
{}

/// The join of two stamps is the least stamp above both: it has the greater of each pair of parts.
pub fn join_is_least()
    ensures least { (a b : List ℕ) → IsLeastAbove a b (join a b) }
    ensures merge { IsMerge join }
    ensures parts { (a b : List ℕ) (place : ℕ) → part (join a b) place ≡ max (part a place) (part b place) }
    ensures count { (a b : List ℕ) → length a ≡ length b → length (join a b) ≡ length a }
{}

/// Writing a part changes that part alone.
pub fn set_part_changes_one()
    ensures own { (a : List ℕ) (place n : ℕ) → part (set_part a place n) place ≡ n }
    ensures others { (a : List ℕ) (place n q : ℕ) → q ≢ place → part (set_part a place n) q ≡ part a q }
    ensures count { (a : List ℕ) (place n : ℕ) → place < length a → length (set_part a place n) ≡ length a }
{}
