// The bone count and the threshold.
ghost use Rattle.std.specs.Prelude.{◌≤◌, ◌<◌};

// As rows 1 and 2 accept them. Before that n and k are two numbers that may be anything, as C lends them. That a table is `Small` stays a clause, since
// docs/PROMISES.md names the functions that ask for it by it.
#[derive(Clone, Copy)]
pub(crate) struct Counts {
    pub(crate) bones: usize,
    pub(crate) k: u64,
    ghost some_bones: { 0 < bones },
    ghost few_bones: { bones ≤ 128 },
    ghost low_threshold: { k ≤ 65535 },
}
