// What the calls from C tell: each answer in numbers, since C has no Result. A number that says nothing where a call refused, or where it did not, is nought.
ghost use Rattle.std.specs.Prelude.{◌≡◌};
ghost use Rattle.calls.specs.Told.{told, told_count, told_reading};

use cutting::Answer;
use meaning::Refusal;
use texts::Reading;

// Of grouping and checking: the refusal's number, nought where nothing is refused, and its place; the number of groups or piles, and whether the run of
// cuts is finished.
#[repr(C)]
#[derive(Clone, Copy, Default)]
pub struct Told {
    pub number: u32,
    pub place: u32,
    pub count: u32,
    pub finished: u32,
}

// Of thinning and the writers: the refusal, or how many links were kept, how many bytes written.
#[repr(C)]
#[derive(Clone, Copy, Default)]
pub struct ToldCount {
    pub number: u32,
    pub place: u32,
    pub count: u32,
}

// Of the reader: the refusal, or the head's numbers, and how many links and cuts were read.
#[repr(C)]
#[derive(Clone, Copy, Default)]
pub struct Input {
    pub number: u32,
    pub place: u32,
    pub n: u32,
    pub k: u32,
    pub links: u32,
    pub cuts: u32,
}

impl From<Result<Answer, Refusal>> for Told {
    ghost from_gives = { λ answer r. r ≡ told answer };

    #[tactic(auto, unfolding(crate::specs::Told::told))]
    fn from(answer: Result<Answer, Refusal>) -> Told {
        match answer {
            Ok(Answer { count, finished }) => Told {
                count,
                finished: u32::from(finished),
                ..Told::default()
            },
            Err(Refusal { row, place }) => Told {
                number: u32::from(u8::from(row)),
                place,
                ..Told::default()
            },
        }
    }
}

impl From<Result<u32, Refusal>> for ToldCount {
    ghost from_gives = { λ counted r. r ≡ told_count counted };

    #[tactic(auto, unfolding(crate::specs::Told::told_count))]
    fn from(counted: Result<u32, Refusal>) -> ToldCount {
        match counted {
            Ok(count) => ToldCount {
                count,
                ..ToldCount::default()
            },
            Err(Refusal { row, place }) => ToldCount {
                number: u32::from(u8::from(row)),
                place,
                ..ToldCount::default()
            },
        }
    }
}

impl From<Result<Reading, Refusal>> for Input {
    ghost from_gives = { λ reading r. r ≡ told_reading reading };

    #[tactic(auto, unfolding(crate::specs::Told::told_reading))]
    fn from(reading: Result<Reading, Refusal>) -> Input {
        match reading {
            Ok(Reading { n, k, links, cuts }) => Input {
                n: u32::from(n),
                k: u32::from(k),
                links,
                cuts,
                ..Input::default()
            },
            Err(Refusal { row, place }) => Input {
                number: u32::from(u8::from(row)),
                place,
                ..Input::default()
            },
        }
    }
}
