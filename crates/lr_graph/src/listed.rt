//! Laws about what is listed and kept of sets: each function does nothing, and its contract is the law.
ghost use Rattle.std.specs.Prelude.{◌≡◌, List, None, Some};
ghost use Rattle.lr_base.specs.Ascending.{cid_before, is_before};
ghost use Rattle.lr_base.specs.declared.names.Cid.{Cid};
ghost use Rattle.lr_base.specs.declared.names.Spot.{Spot};
ghost use Rattle.lr_graph.specs.Closed.{HasApartSpots};
ghost use Rattle.lr_graph.specs.Graph.{Acceptance, Kept, calls_of, keep_new, kept_spot, least_spot, spots_of};
ghost use Rattle.lr_graph.specs.Listed.{HasMember, IsLeastOf, IsListOf};
ghost use Rattle.lr_graph.specs.Sets.{SpotSet};

use lr_base::lr_service::Service;

/// The spots and the calls that are listed of a set ascend, each once: they are just those of its members.
pub fn listed_are_the_members<S: Service>()
    ensures spots { (accepted : List (Acceptance S.Op)) (set : SpotSet) → HasApartSpots accepted
        → IsListOf is_before (λ spot. HasMember accepted set (λ a. a.spot ≡ spot)) (spots_of accepted set) }
    ensures calls { (accepted : List (Acceptance S.Op)) (set : SpotSet)
        → IsListOf cid_before (λ cid. HasMember accepted set (λ a. a.cid ≡ cid)) (calls_of accepted set) }
{}

/// Of a call of which no spot is kept, the least one that the set has of it is kept from now on, if it has one. What is
/// kept stays.
pub fn the_least_spot_is_kept<S: Service>()
    ensures least { (accepted : List (Acceptance S.Op)) (set : SpotSet) (cid : Cid) (spot : Spot)
        → least_spot accepted set cid ≡ Some spot → IsLeastOf accepted set cid spot }
    ensures none { (accepted : List (Acceptance S.Op)) (set : SpotSet) (cid : Cid)
        → least_spot accepted set cid ≡ None → ¬ (HasMember accepted set (λ a. a.cid ≡ cid)) }
    ensures kept { (accepted : List (Acceptance S.Op)) (set : SpotSet) (kept : List Kept) (cid : Cid)
        → kept_spot kept cid ≡ None
        → kept_spot (keep_new accepted set accepted kept) cid ≡ least_spot accepted set cid }
    ensures stays { (accepted : List (Acceptance S.Op)) (set : SpotSet) (kept : List Kept) (cid : Cid) (spot : Spot)
        → kept_spot kept cid ≡ Some spot → kept_spot (keep_new accepted set accepted kept) cid ≡ Some spot }
{}
