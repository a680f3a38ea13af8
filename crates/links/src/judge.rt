// Judging the bone count, the threshold and one link: rows 1 to 6 of the refusal table; and the link in a place of a run of bytes.
ghost use Rattle.std.specs.Prelude.{◌≡◌, slice_index_or};
ghost use Rattle.meaning.specs.Judge.{first};
ghost use Rattle.links.specs.Links.{links_of, count_rows, link_rows};
ghost use Rattle.links.specs.Forms.{no_link};

use meaning::{Link, Refusal, Row};

// Rows 1, 2 and 3. `whole` says that the run in which the links were lent holds whole links. It stands beside their number, and not in an Option of it, since
// docs/PROMISES.md names this function, which takes both.
pub fn judge_counts(n: u64, k: u64, whole: bool, count: usize) -> Result<(), Refusal>
    ensures { result ≡ first (count_rows n k whole count) }
{
    if n == 0 || 128 < n {
        return Err(Row::Bones.at(0));
    }
    if k == 0 || 65535 < k {
        return Err(Row::Threshold.at(0));
    }
    if !whole || 4096 < count {
        return Err(Row::Links.at(0));
    }
    Ok(())
}

// Rows 4, 5 and 6 on the link in place i.
pub fn judge_link(n: u64, l: Link, i: u32) -> Result<(), Refusal>
    ensures { result ≡ first (link_rows n i l) }
{
    if n <= u64::from(l.a) || n <= u64::from(l.b) {
        return Err(Row::LinkEnd.at(i));
    }
    if l.a == l.b {
        return Err(Row::EqualEnds.at(i));
    }
    if l.tally == 0 {
        return Err(Row::Tally.at(i));
    }
    Ok(())
}

// The link in place i of those that a run of bytes means; past the last, a link of noughts.
// Noughts and no Option: docs/PROMISES.md promises a link for every place, and names both forms of this function.
pub fn link_at(links: &[u8], i: usize) -> Link
    ensures { result ≡ slice_index_or (links_of links.now) i no_link }
{
    let (links, _) = links.as_chunks::<4>();
    match links.get(i) {
        Some(&[a, b, high, low]) => Link {
            a,
            b,
            tally: u16::from_be_bytes([high, low]),
        },
        None => Link::NONE,
    }
}
