//! Lists of conflicts in the order of publishing: one without those that are hidden and with those that are shown.
ghost use Rattle.std.specs.Prelude.{◌≡◌, ◌<◌, ◌≤◌, ◌+◌, ◌++◌, ◌↔◌, ◌⊎◌, Contains, MatchResult, length, vec_capacity, vec_len};
ghost use Rattle.std.specs.List.Sorted.{IsBinarySearchResult, IsStrictlySortedBy};
ghost use Rattle.mt_base.specs.declared.conflict.Conflict.{Conflict};
ghost use Rattle.mt_base.specs.Picture.{conflict_cmp};
ghost use Rattle.mt_kept.specs.Private.Merging.{AreOthersAdded, IsParted};

use mt_base::Conflict;

/// How many conflicts at the head of a list are searched first. Of those that a tick merges half stand before all others, and the rest far
/// apart.
const HEAD: usize = 1;

/// Where a conflict stands in a list, or else where it would stand. It searches the head first, since conflicts that are merged often stand
/// close together.
fn place_of(list: &[Conflict], conflict: &Conflict) -> Result<usize, usize>
    requires { IsStrictlySortedBy conflict_cmp list.now }
    ensures bound { MatchResult result (λ place. place < length list.now) (λ place. place ≤ length list.now) }
    ensures position { IsBinarySearchResult (λ c. conflict_cmp c conflict.now) list.now result }
{
    let head = list.len().min(HEAD);
    match list[..head].binary_search(conflict) {
        Ok(place) => Ok(place),
        Err(place) => {
            if place < head {
                Err(place)
            } else {
                list.binary_search(conflict)
            }
        }
    }
}

/// What of a list comes before a conflict, and what comes after it.
fn parted<'a>(list: &'a [Conflict], conflict: &Conflict) -> (&'a [Conflict], &'a [Conflict])
    requires { IsStrictlySortedBy conflict_cmp list.now }
    ensures { IsParted conflict.now list.now result.0.now result.1.now }
{
    match place_of(list, conflict) {
        Ok(place) => (&list[..place], &list[place + 1..]),
        Err(place) => (&list[..place], &list[place..]),
    }
}

/// How many conflicts are copied at once. A longer copy isn't quicker for a list that stays in the cache.
const BLOCK: usize = 128;

/// Puts the conflicts of a list after what `merged` holds, block by block. It has room for all.
fn add_all(merged: &mut Vec<Conflict>, list: &[Conflict])
    requires { vec_len merged.old + length list.now ≤ vec_capacity merged.old }
    ensures items { merged.new.items ≡ merged.old.items ++ list.now }
    ensures len { vec_len merged.new ≡ vec_len merged.old + length list.now }
    ensures capacity { vec_capacity merged.old ≤ vec_capacity merged.new }
{
    for block in list.chunks(BLOCK) {
        let _ = merged.extend_from_slice(block);
    }
}

/// Puts the conflicts of a list that `hidden` doesn't have after what `merged` holds. It has room for all.
///
/// It copies at once what stands between two of the hidden ones.
fn add_others(merged: &mut Vec<Conflict>, list: &[Conflict], hidden: &[Conflict])
    requires room { vec_len merged.old + length list.now ≤ vec_capacity merged.old }
    requires sorted { IsStrictlySortedBy conflict_cmp list.now }
    requires hidden_sorted { IsStrictlySortedBy conflict_cmp hidden.now }
    ensures added { AreOthersAdded list.now hidden.now merged.old.items merged.new.items }
    ensures len { vec_len merged.new ≤ vec_len merged.old + length list.now }
    ensures capacity { vec_capacity merged.old ≤ vec_capacity merged.new }
{
    let mut rest = list;
    for conflict in hidden {
        let (before, after) = parted(rest, conflict);
        add_all(merged, before);
        rest = after;
    }
    add_all(merged, rest);
}

/// Puts the conflicts of a list without the hidden ones, and those that are shown, in order and each once, in the place of what `merged` holds.
/// It has room for all.
///
/// It looks for the place of each hidden and each shown one by halving, and copies what stands between two places at once: so it serves where
/// these are few beside the list.
pub(crate) fn merge(
    merged: &mut Vec<Conflict>,
    list: &[Conflict],
    hidden: &[Conflict],
    shown: &[Conflict],
)
    requires room { length list.now + length shown.now ≤ vec_capacity merged.old }
    requires sorted { IsStrictlySortedBy conflict_cmp list.now }
    requires hidden_sorted { IsStrictlySortedBy conflict_cmp hidden.now }
    requires shown_sorted { IsStrictlySortedBy conflict_cmp shown.now }
    ensures exact { (c : Conflict) → Contains merged.new.items c ↔ ((Contains list.now c × (¬ Contains hidden.now c)) ⊎ Contains shown.now c) }
    ensures sorted { IsStrictlySortedBy conflict_cmp merged.new.items }
    ensures len { vec_len merged.new ≤ length list.now + length shown.now }
    ensures capacity { vec_capacity merged.old ≤ vec_capacity merged.new }
{
    merged.clear();
    let mut rest = list;
    let mut gone = hidden;
    for conflict in shown {
        let (before, after) = parted(rest, conflict);
        let (first, later) = parted(gone, conflict);
        add_others(merged, before, first);
        merged.push_reserved(*conflict);
        rest = after;
        gone = later;
    }
    add_others(merged, rest, gone);
}
