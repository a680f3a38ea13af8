// The calls from C over link records: in C an array of struct bones_link, a pointer and then a number of links.
// Those over bytes are no generic functions with these: a name in C stands for one function.
ghost use Rattle.std.specs.Prelude.{true};
ghost use Rattle.cutting.specs.Calls.{Checking, Grouping, ThinningRecords};
ghost use Rattle.calls.specs.Told.{told, told_count, Telling};

use crate::told::{Told, ToldCount};
use cutting::{checking, grouping, thinning};
use meaning::Link;

#[unsafe(no_mangle)]
pub extern "C" fn bones_grouping_records(
    n: u64,
    k: u64,
    links: &[Link],
    record: &[u8],
    labels: &mut [u8],
    space: &mut [u8],
) -> Told
    ensures { Telling told (Grouping n k true links.now «record».now labels.old labels.new space.old space.new) result }
{
    grouping(n, k, links, record, labels, space).into()
}

#[unsafe(no_mangle)]
pub extern "C" fn bones_checking_records(
    n: u64,
    k: u64,
    links: &[Link],
    record: &[u8],
    labels: &mut [u8],
) -> Told
    ensures { Telling told (Checking n k true links.now «record».now labels.old labels.new) result }
{
    checking(n, k, links, record, labels).into()
}

#[unsafe(no_mangle)]
pub extern "C" fn bones_thinning_records(
    n: u64,
    k: u64,
    links: &[Link],
    space: &mut [Link],
) -> ToldCount
    ensures { Telling told_count (ThinningRecords n k links.now space.old space.new) result }
{
    thinning(n, k, links, space).into()
}
