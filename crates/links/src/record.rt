// One link record of a run of them: read, stored, and held against labels.
ghost use Rattle.std.specs.Prelude.{◌≡◌, slice_index_or, slice_set};
ghost use Rattle.links.specs.Records.{same_label};
ghost use Rattle.links.specs.Forms.{no_link};

use meaning::Link;

// The link in place i; past the end, a link of noughts.
// Noughts and no Option: docs/PROMISES.md promises a link for every place, and names both forms of this function.
pub fn link_at(links: &[Link], i: usize) -> Link
    ensures { result ≡ slice_index_or links.now i no_link }
{
    links.get(i).copied().unwrap_or(Link::NONE)
}

// The link is put in place i, and the others stay; past the end nothing changes.
pub fn store_link(links: &mut [Link], i: usize, l: Link)
    ensures { links.new ≡ slice_set links.old i l }
{
    // By index: with `get_mut` the proof did not close, since once that borrow is over it knows the run's length and not its links.
    if i < links.len() {
        links[i] = l;
    }
}

// Whether both ends of a link carry the same label. No bone from 128 on has one.
pub fn same_label(labels: &[u8; 128], l: Link) -> bool
    ensures { result ≡ same_label labels.now l }
{
    let a = usize::from(l.a);
    let b = usize::from(l.b);
    a < 128 && b < 128 && labels[a] == labels[b]
}
