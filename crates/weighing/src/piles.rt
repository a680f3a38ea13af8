// The piles of a heap, as what is lent tells them: the name of each bone's pile, and how many bones there are.
// The public functions take names and a count, which docs/PROMISES.md names.
ghost use Rattle.std.specs.Prelude.{◌≡◌, ◌≤◌, min};

#[derive(Clone, Copy)]
pub(crate) struct Piles<'a> {
    pub(crate) names: &'a [u8; 128],
    pub(crate) bones: usize,
    ghost few: { bones ≤ 128 },
}

impl<'a> Piles<'a> {
    // A bone count over 128 means 128.
    pub(crate) fn new(names: &'a [u8; 128], n: usize) -> Self
        ensures { (result.bones ≡ min n 128) × (result.names.now ≡ names.now) }
    {
        Piles {
            names,
            bones: n.min(128),
        }
    }
}
