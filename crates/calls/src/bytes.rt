// The calls from C over links as bytes, four a link. In C each slice is a pointer and then a length.
ghost use Rattle.cutting.specs.Calls.{CheckingBytes, GroupingBytes, ThinningBytes};
ghost use Rattle.calls.specs.Told.{told, told_count, Telling};

use crate::told::{Told, ToldCount};
use cutting::{checking, grouping, thinning};

#[unsafe(no_mangle)]
pub extern "C" fn bones_grouping(
    n: u64,
    k: u64,
    links: &[u8],
    record: &[u8],
    labels: &mut [u8],
    space: &mut [u8],
) -> Told
    ensures { Telling told (GroupingBytes n k links.now «record».now labels.old labels.new space.old space.new) result }
{
    grouping(n, k, links, record, labels, space).into()
}

#[unsafe(no_mangle)]
pub extern "C" fn bones_checking(
    n: u64,
    k: u64,
    links: &[u8],
    record: &[u8],
    labels: &mut [u8],
) -> Told
    ensures { Telling told (CheckingBytes n k links.now «record».now labels.old labels.new) result }
{
    checking(n, k, links, record, labels).into()
}

#[unsafe(no_mangle)]
pub extern "C" fn bones_thinning(n: u64, k: u64, links: &[u8], space: &mut [u8]) -> ToldCount
    ensures { Telling told_count (ThinningBytes n k links.now space.old space.new) result }
{
    thinning(n, k, links, space).into()
}
