// A list over a slice that the caller lends: it fills the slice from the front.
// A slice with a length, since the customer fixed that answers fill the caller's slice, and nothing is allocated.
ghost use Rattle.std.specs.Prelude.{◌≤◌, length};

mod calls;

#[derive(Drop)]
pub struct List<'a, E: Copy> {
    slots: &'a mut [E],
    len: usize,
    ghost within: { len ≤ length slots.now },
}
