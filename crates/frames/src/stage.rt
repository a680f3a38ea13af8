// How far an input text has come, and which frames may follow.
ghost use Rattle.std.specs.Prelude.{◌≡◌};
ghost use Rattle.frames.specs.Stages.{follows, open_at};

use crate::kind::Kind;

// Nothing yet; after the head; after the first cut; after the close.
#[derive(Clone, Copy, Default, PartialEq, Eq)]
pub enum Stage {
    #[default]
    Opening,
    Linking,
    Cutting,
    Closed,
}

// Whether a frame of that kind may stand there: head; links and notes; cuts and notes; close; nothing after.
// The kind is a number, since `follows` promises an answer for every number.
#[tactic(auto, unfolding(crate::specs::Stages::follows))]
pub fn may_follow(stage: Stage, kind: usize) -> bool
    ensures { result ≡ follows stage kind }
{
    matches!(
        (stage, Kind::try_from(kind)),
        (Stage::Opening, Ok(Kind::Head))
            | (Stage::Linking, Ok(Kind::Link))
            | (
                Stage::Linking | Stage::Cutting,
                Ok(Kind::Cut | Kind::Note | Kind::Close)
            )
    )
}

// Whether the close is still to come.
#[tactic(auto, unfolding(crate::specs::Stages::open_at))]
pub fn is_open(stage: Stage) -> bool
    ensures { result ≡ open_at stage }
{
    stage != Stage::Closed
}
