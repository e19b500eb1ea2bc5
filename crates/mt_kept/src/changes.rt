//! What is to stand in places: how pairs and places are changed.
ghost use Rattle.std.specs.Prelude.{◌≡◌, ◌<◌, ◌≤◌, All, AllPairs, length, map, set};
ghost use Rattle.std.specs.List.{list_any};
ghost use Rattle.mt_edges.specs.Pairs.{AreDistinctPairs, HaveSameEnds, IsEdge, touches};
ghost use Rattle.mt_kept.specs.Losing.{TouchesOne};
ghost use Rattle.mt_kept.specs.Places.{change_place, seen, with_changes};
ghost use Rattle.mt_kept.specs.Private.Made.{AreReplaced, WereDropped, without_places};

use crate::open_pair::OpenPair;
use mt_base::Steps;
use mt_edges::{Edge, Edges};
use mt_track::Item;

/// What is to stand in a place.
#[derive(Drop)]
pub struct PlaceChange {
    /// The place.
    pub place: u32,
    /// The item, or nothing.
    pub item: Option<Item>,
}

/// Takes the pairs of the changed places out. It takes no memory.
fn drop_pairs(pairs: &mut Edges, changes: &[PlaceChange], steps: &mut Steps)
    requires distinct { AreDistinctPairs pairs.old.edges }
    ensures edges { pairs.new.edges ≡ without_places (map change_place changes.now) pairs.old.edges }
    ensures steps { WereDropped (map change_place changes.now) pairs.old.edges steps.old steps.new }
    ensures once { AreDistinctPairs pairs.new.edges }
    ensures spare { pairs.old.spare ≤ pairs.new.spare }
    ensures ends { pairs.new.ends ≡ pairs.old.ends }
{
    for change in changes {
        pairs.drop_all(change.place, steps);
    }
}

/// Takes the pairs of the changed places out and puts the found ones in. It takes no memory.
pub(crate) fn replace_pairs(
    pairs: &mut Edges,
    changes: &[PlaceChange],
    finds: &[OpenPair],
    steps: &mut Steps,
)
    requires once { AreDistinctPairs pairs.old.edges }
    requires room { length finds.now ≤ pairs.old.spare }
    requires touching { All (λ o. TouchesOne (map change_place changes.now) o.edge) finds.now }
    requires sound { All (λ o. IsEdge pairs.old.ends o.edge) finds.now }
    requires distinct { AllPairs (λ o p. ¬ HaveSameEnds o.edge p.edge) finds.now }
    ensures replaced { AreReplaced (map change_place changes.now) finds.now pairs.old.edges pairs.new.edges }
    ensures once { AreDistinctPairs pairs.new.edges }
    ensures ends { pairs.new.ends ≡ pairs.old.ends }
    ensures steps { WereDropped (map change_place changes.now) pairs.old.edges steps.old steps.new }
{
    drop_pairs(pairs, changes, steps);
    for find in finds {
        pairs.add(find.edge);
    }
}

/// Puts a change's item into its place.
fn put_item(places: &mut [Option<Item>], change: PlaceChange)
    requires { change.place < length places.old }
    ensures put { map seen places.new ≡ set (map seen places.old) change.place (seen change.item) }
    ensures len { length places.new ≡ length places.old }
{
    places[change.place as usize] = change.item;
}

/// Puts each change's item into its place, one after another.
pub(crate) fn put_items(places: &mut [Option<Item>], changes: Vec<PlaceChange>)
    requires { All (λ c. c.place < length places.old) changes.items }
    ensures { map seen places.new ≡ with_changes (map seen places.old) changes.items }
{
    for change in changes {
        put_item(places, change);
    }
}

/// Whether an end of a pair is a changed place.
pub(crate) fn is_changed(edge: &Edge, changes: &[PlaceChange]) -> bool
    ensures { result ≡ list_any (λ c. touches c.place edge.now) changes.now }
{
    changes
        .iter()
        .any(|change| edge.a == change.place || edge.b == change.place)
}
