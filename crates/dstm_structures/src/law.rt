// How many forks stand on a way down an order, and how many keys maps and sets have room for.
ghost use Rattle.std.specs.Prelude.{◌≡◌, ◌^◌, ◌<◌, ◌≤◌, ℕ, List, Some};
ghost use Rattle.dstm_model.specs.declared.value.Val.{Val};
ghost use Rattle.dstm_structures.specs.Items.{Counts};
ghost use Rattle.dstm_structures.specs.Maps.{Adds, HasNoRoom, WastesNone, place_in};
ghost use Rattle.dstm_structures.specs.Ordered as ordered;
ghost use Rattle.dstm_structures.specs.Ordered.{WastesNoFork};
ghost use Rattle.dstm_structures.specs.Orders.{IsOrderedBy, Trie, height};
ghost use Rattle.dstm_structures.specs.Sets as sets;
ghost use Rattle.dstm_structures.specs.declared.map.HashMap.{HashMap};
ghost use Rattle.dstm_structures.specs.declared.ordered.OrderedMap.{OrderedMap};
ghost use Rattle.dstm_structures.specs.declared.set.OrderedSet.{OrderedSet};

use dstm_cells::Word;

/// The law of the height of orders: no way down the trie in an ordered map's cells has more than 64 forks, nor more than the
/// map's keys have bits. So a map of keys below n has at most as many forks on a way as n has bits.
pub fn height_is_within_bits()
    ensures most { (first n : ℕ) (values : List Val) (t : Trie) → IsOrderedBy first n t values → height t ≤ 64 }
    ensures few { (first n b : ℕ) (values : List Val) (t : Trie) → IsOrderedBy first n t values →
        ((at key : ℕ) → place_in first n values key ≡ Some at → key < 2 ^ b) → height t ≤ b }
{}

/// The law of room in a hash map: a new one wastes no place, and where none is wasted, a key is refused only where there are as
/// many keys as the map has room for. No call wastes a place: so a map that was made for n keys has room for n.
pub fn map_has_room<V: Word>()
    ensures made { (map : HashMap V) (before after : List Val) → Adds V.found map before after → WastesNone map after }
    ensures full { (map : HashMap V) (key count : ℕ) (before after told : List Val) → WastesNone map before →
        HasNoRoom V.found map key before after → Counts V.found map count before told → count ≡ map.cells.capacity }
{}

/// The law of room in an ordered map, which has to waste no fork either.
pub fn ordered_map_has_room<V: Word>()
    ensures made { (map : OrderedMap V) (before after : List Val) → ordered.Adds V.found map before after →
        WastesNone map.map after × WastesNoFork map after }
    ensures full { (map : OrderedMap V) (key count : ℕ) (before after told : List Val) → WastesNone map.map before →
        WastesNoFork map before → ordered.HasNoRoom V.found map key before after → Counts V.found map.map count before told →
        count ≡ map.map.cells.capacity }
{}

/// The law of room in a set.
pub fn set_has_room()
    ensures made { (set : OrderedSet) (before after : List Val) → sets.Adds set before after →
        WastesNone set.map.map after × WastesNoFork set.map after }
    ensures full { (set : OrderedSet) (key count : ℕ) (before after told : List Val) → WastesNone set.map.map before →
        WastesNoFork set.map before → sets.HasNoRoom set key before after → sets.Counts set count before told →
        count ≡ set.map.map.cells.capacity }
{}
