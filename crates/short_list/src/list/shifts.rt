// Shifts within a slice.
ghost use Rattle.std.specs.Prelude.{◌≡◌, ◌<◌, List, [], ◌∷◌, ◌++◌, length, take, ◌-◌};
ghost use Rattle.std.specs.List.{insert, remove};

// Moves the last item to a place, and the items from there on up.
pub(super) fn last_to<T>(items: &mut [T], place: usize)
    requires { place < length items.old }
    ensures { (front : List T) (last : T) → items.old ≡ front ++ last ∷ [] → items.new ≡ insert front place last }
{
    items[place..].rotate_right(1);
}

// Takes the item at a place out; those after it move up, and the last slot is free.
pub(super) fn take_out<T>(items: &mut [T], place: usize)
    requires { place < length items.old }
    ensures { take (length items.old - 1) items.new ≡ remove items.old place }
{
    items[place..].rotate_left(1);
}
