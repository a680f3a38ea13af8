// The kinds of frames, by name. Where a promise is over every number that may stand for a kind, the number stays a number.
ghost use Rattle.std.specs.Prelude.{◌≡◌};
ghost use Rattle.frames.specs.Kinds.{number_of, Decodes};

// Each is written as its number. A cast of a kind, as `Kind::Head as u8`, is that number as a constant, without a step in a proof; a call of `From` is no plainer.
#[derive(Clone, Copy, PartialEq, Eq)]
pub enum Kind {
    Head = 1,
    Link = 2,
    Cut = 3,
    Label = 4,
    Note = 5,
    Close = 6,
    Refusal = 7,
}

impl From<Kind> for usize {
    ghost from_gives = { λ kind number. number ≡ number_of kind };

    fn from(kind: Kind) -> usize {
        kind as usize
    }
}

impl From<Kind> for u8 {
    ghost from_gives = { λ kind number. number ≡ number_of kind };

    fn from(kind: Kind) -> u8 {
        kind as u8
    }
}

// A number that is no kind's.
#[derive(Clone, Copy, PartialEq, Eq)]
pub struct NoKind;

impl TryFrom<usize> for Kind {
    type Error = NoKind;

    ghost try_from_gives = { Decodes };

    fn try_from(number: usize) -> Result<Self, NoKind> {
        match number {
            1 => Ok(Kind::Head),
            2 => Ok(Kind::Link),
            3 => Ok(Kind::Cut),
            4 => Ok(Kind::Label),
            5 => Ok(Kind::Note),
            6 => Ok(Kind::Close),
            7 => Ok(Kind::Refusal),
            _ => Err(NoKind),
        }
    }
}
