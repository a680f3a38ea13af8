// The bytes that the entries of a record take.
// A cast here loses nothing, as is proved; std has no `From` between these widths, and `try_from` would have a case that never comes.
ghost use Rattle.std.specs.Prelude.{◌≡◌, ◌*◌, ◌-◌};
ghost use Rattle.cutting.specs.Record.{entry_size};

use crate::record::Record;

// The bytes of so many entries.
pub fn size_of(cuts: u32) -> usize
    ensures { result ≡ cuts * entry_size }
{
    cuts as usize * Record::ENTRY
}

// The bytes of a finished run's record: one cut fewer than groups.
pub fn size_of_run(groups: u32) -> usize
    ensures { result ≡ (groups - 1) * entry_size }
{
    size_of(groups.saturating_sub(1))
}
