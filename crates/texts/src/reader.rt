// The reader: a text is judged whole, and only then are its links and cuts stored.
ghost use Rattle.texts.specs.Reader.{Reads};

use crate::Reading;
use crate::judge::judge;
use crate::store::store;
use cutting::size::size_of;
use meaning::{Link, Refusal};

// Reads a text: n, k and how many links and cuts it has. They are stored in the room lent for them, the rest of which stays; a refusal changes none
// of it.
pub fn read(text: &[u8], links: &mut [Link], space: &mut [u8]) -> Result<Reading, Refusal>
    ensures { Reads text.now links.old links.new space.old space.new result }
{
    let found = judge(text, links.len(), space.len())?;
    store(text, links, found.links as usize);
    store(text, space, size_of(found.cuts));
    Ok(found)
}
