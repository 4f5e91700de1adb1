// What the definitions of an area and its items say of each other.
ghost use Rattle.std.specs.Prelude.{◌≡◌, ◌≢◌, ◌↔◌, ◌++◌, ℕ, List, Some, None, All};
ghost use Rattle.std.specs.List.{flat_map};
ghost use Rattle.bfs_smalldata.specs.Items.{Item, items_of, bytes_of, Ends, IsArea, IsWritable, RunsPast};
ghost use Rattle.bfs_smalldata.specs.Edits.{named, without, with_item, AreDistinct};

/// The items that are read from an area are those that stand in it, one after the other, up to the end of
/// the list; none are read exactly where one runs past the area. Items that were written one after the
/// other are read back.
pub fn items_stand()
    ensures items { (area : List ℕ) (items : List Item) → (items_of area ≡ Some items) ↔ IsArea area items }
    ensures faults { (area : List ℕ) → (items_of area ≡ None) ↔ ((at : ℕ) × RunsPast area at) }
    ensures written { (items : List Item) (rest : List ℕ) → All IsWritable items → Ends rest → items_of (flat_map bytes_of items ++ rest) ≡ Some items }
{}

/// An item that was put is found. Every other item is found as before, and stands in its order.
pub fn put_is_found()
    ensures found { (new : Item) (items : List Item) → named new.name (with_item new items) ≡ Some new }
    ensures others { (new : Item) (items : List Item) (name : List ℕ) → name ≢ new.name → named name (with_item new items) ≡ named name items }
    ensures order { (new : Item) (items : List Item) → without new.name (with_item new items) ≡ without new.name items }
    ensures distinct { (new : Item) (items : List Item) → AreDistinct items → AreDistinct (with_item new items) }
{}

/// Where names are distinct, an item that was taken is found no more. Every other item is found as before.
pub fn taken_is_gone()
    ensures gone { (name : List ℕ) (items : List Item) → AreDistinct items → named name (without name items) ≡ None }
    ensures others { (name other : List ℕ) (items : List Item) → other ≢ name → named other (without name items) ≡ named other items }
    ensures distinct { (name : List ℕ) (items : List Item) → AreDistinct items → AreDistinct (without name items) }
{}
