ghost use Rattle.std.specs.Prelude.{◌≡◌, ◌≤◌, length};

mod calls;
mod shifts;

// At most N items: the first `len` slots. What the others hold is nobody's. The kit's `ArrayVec` is not `Copy`.
#[derive(Copy)]
pub struct ShortList<T: Copy, const N: usize> {
    slots: [T; N],
    len: usize,
    ghost width: { length slots ≡ N },
    ghost within: { len ≤ N },
}

// A list has no slot left for one more item.
#[derive(Clone, Copy, PartialEq, Eq, Debug)]
pub struct Full;
