// What a table is filled with, from each form of links, and from a form that says nothing of how it fills one. What is wanted is reckoned by hand.
ghost use Rattle.std.specs.Prelude.{refl, true, [], ◌∷◌};

use crate::form::LinkForm;
use crate::table::{fill, tally_of};
use meaning::{Link, Refusal, Row};

// Whatever stands in the run, it means one link, of tally 3 between bones 0 and 1; nothing is written as such a run.
#[derive(Clone, Copy)]
struct Lone;

impl LinkForm for Lone {
    ghost links_in = { λ run. record { a = 0; b = 1; tally = 3 } ∷ [] };

    ghost are_whole = { λ run. true };

    ghost written = { λ links. [] };

    fn count(_run: &[Lone]) -> usize {
        1
    }

    fn is_whole(_run: &[Lone]) -> bool {
        true
    }

    fn link(_run: &[Lone], i: usize) -> Link {
        if i == 0 { ONE } else { Link::NONE }
    }

    fn put(_room: &mut [Lone], _i: usize, _l: Link) {}

    ghost written_none = { refl };
}

const ONE: Link = Link {
    a: 0,
    b: 1,
    tally: 3,
};

#[test]
fn fills_from_each_form(rt: HostRuntime) {
    for (n, k, want, tally) in [
        (2, 1, Ok(()), 3),
        (0, 0, Err(Row::Bones.at(0)), 0),
        (2, 0, Err(Row::Threshold.at(0)), 0),
        (1, 1, Err(Row::LinkEnd.at(0)), 0),
    ] {
        assert_eq!(rt;
            filled_from(n, k, &[Lone]),
            (want, tally),
            "a form with no filling of its own, {n} bones at {k}"
        );
        assert_eq!(rt;
            filled_from(n, k, &[ONE]),
            (want, tally),
            "records, {n} bones at {k}"
        );
        assert_eq!(rt;
            filled_from(n, k, &[0u8, 1, 0, 3]),
            (want, tally),
            "bytes, {n} bones at {k}"
        );
    }
}

// What filling answers, and the tally of bones 0 and 1 in a table of noughts afterwards.
fn filled_from<L: LinkForm>(n: u64, k: u64, links: &[L]) -> (Result<(), Refusal>, u32) {
    let mut table = [0u32; 16384];
    let answer = fill(n, k, links, &mut table);
    (answer, tally_of(&table, 1, 0))
}
