// The words that every part shares: a link, and why an input is refused.
#![tactic(auto)]

ghost use Rattle.std.specs.Prelude.{◌≡◌};
ghost use Rattle.meaning.specs.Judge.{number_of};

// Two bones that were matched, and the tally of independent matching traits. In C it is struct bones_link.
#[repr(C)]
#[derive(Clone, Copy, Debug, PartialEq, Eq)]
pub struct Link {
    pub a: u8,
    pub b: u8,
    pub tally: u16,
}

impl Link {
    // The link of noughts, which stands where there is none.
    pub const NONE: Link = Link {
        a: 0,
        b: 0,
        tally: 0,
    };
}

// The rows of the refusal table, each by what it finds wrong and with its number there.
#[derive(Clone, Copy, Debug, PartialEq, Eq)]
pub enum Row {
    Bones = 1,
    Threshold = 2,
    Links = 3,
    LinkEnd = 4,
    EqualEnds = 5,
    Tally = 6,
    LabelSpace = 7,
    RecordSpace = 8,
    Record = 9,
    Pile = 10,
    Side = 11,
    Weight = 12,
    NotLight = 13,
    LinkSpace = 14,
    TextLength = 15,
    Line = 16,
    Sum = 17,
    Order = 18,
    Close = 19,
    TextSpace = 20,
}

impl Row {
    // The refusal under a row, at a place.
    pub fn at(self, place: u32) -> Refusal
        ensures { result ≡ record { row = self; place = place } }
    {
        Refusal { row: self, place }
    }
}

impl From<Row> for u8 {
    ghost from_gives = { λ row number. number ≡ number_of row };

    fn from(row: Row) -> u8 {
        row as u8
    }
}

// Why an input is refused: a row of the refusal table, and its place, counted from 0.
#[derive(Clone, Copy, Debug, PartialEq, Eq)]
pub struct Refusal {
    pub row: Row,
    pub place: u32,
}
