//! Laws of the texts of paths and items: each function does nothing, and its contract is the law.

ghost use Rattle.std.specs.Prelude.{◌≡◌, ℕ, List, Ok, Err};
ghost use Rattle.daq_types.specs.declared.types.Tid.{Tid};
ghost use Rattle.odb_value.specs.declared.items.Item.{Item};
ghost use Rattle.odb_value.specs.declared.refusals.ItemRefusal.TheVariants.{BadText};
ghost use Rattle.odb_value.specs.Paths.{IsPath};
ghost use Rattle.odb_value.specs.PathText.{path_reply, path_text};
ghost use Rattle.odb_value.specs.Items.{tid_of, IsSound};
ghost use Rattle.odb_value.specs.Values.{IsShorter, size_limit};
ghost use Rattle.odb_value.specs.ItemTexts.{item_read, item_text};
ghost use Rattle.odb_value.specs.Places.{IsFirstPlace};

/// The text of a path, read, is the path.
pub fn path_again()
    ensures { (p : List (List ℕ)) → IsPath p → path_reply (path_text p) ≡ Ok p }
{}

/// The text of an item, read with the item's type, is the item, unless it is a text of more than 1,023 bytes.
pub fn item_again()
    ensures { (item : Item) → IsSound item → IsShorter size_limit item
        → item_read (tid_of item) (item_text item) ≡ Ok item }
{}

/// The place of a text that is in no form of its type is the first where the form cannot go on.
pub fn first_place()
    ensures { (type : Tid) → (text : List ℕ) → (place : ℕ) → item_read type text
        ≡ Err (BadText place) → IsFirstPlace type text place }
{}
