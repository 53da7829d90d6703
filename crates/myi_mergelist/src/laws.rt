//! Laws over the grammar. Each is the contract of a function that does nothing.
ghost use Rattle.std.specs.Prelude.{◌≡◌, ◌≤◌, ◌<◌, ℕ, List, Option, length, bytes_eq};
ghost use Rattle.std.specs.List.{IsDistinct};
ghost use Rattle.std.specs.Str.{IsUtf8};
ghost use Rattle.myi_mergelist.specs.declared.list.InsertMethod.{InsertMethod};
ghost use Rattle.myi_mergelist.specs.MergeList.{names, most_names, IsMergeList};

/// No text says two things.
pub fn lists_say_one_thing()
    ensures { (text : List ℕ) (members others : List (List ℕ)) (method other : Option InsertMethod)
        → IsMergeList text members method → IsMergeList text others other
        → (members ≡ others) × (method ≡ other) }
{}

/// A text is a list where it is UTF-8 and its names are some, not too many, and each other.
pub fn texts_that_are_lists()
    ensures { (text : List ℕ) → IsUtf8 text → 0 < length (names text)
        → length (names text) ≤ most_names → IsDistinct bytes_eq (names text)
        → (method : Option InsertMethod) × IsMergeList text (names text) method }
{}
