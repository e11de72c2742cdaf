//! Where the slices of a stream begin, read once for a stretch of time.

ghost use Rattle.std.specs.Prelude.{◌≡◌, ◌<◌, ◌^◌, List};
ghost use Rattle.as_base.specs.declared.message.Change.{Change};
ghost use Rattle.changelog.specs.Changes.{epoch_at, slice_start};
ghost use Rattle.changelog.specs.EpochsFor.{EpochsFor, IsKept};
ghost use Rattle.part_state.specs.Cut.{IsCutFor};

use as_base::StreamId;
use changelog::Epochs;

/// After so many changes, the slices of a stream that hold a time from `from` on and before `until` begin at `start`; all
/// in ticks.
#[derive(Drop)]
pub(crate) struct Cut {
    changes: u64,
    from: u64,
    until: u64,
    start: u64,
}

/// No stretch of time yet.
pub(crate) fn no_cut() -> Cut
    ensures { (s : _) (cs : List Change) → IsCutFor result s cs }
{
    Cut {
        changes: 0,
        from: 0,
        until: 0,
        start: 0,
    }
}

/// Where the slice of the stream begins that holds a time, in ticks: it is read off the changes where the stretch does not
/// have the time, or a change came since.
pub(crate) fn start_at(cut: &mut Cut, epochs: &Epochs, s: StreamId, time: u64) -> u64
    requires { time < 2 ^ 62 }
    ensures { (cs : List Change) → EpochsFor epochs.now cs → IsKept epochs.now (epoch_at cs time) → IsCutFor cut.old s cs →
        IsCutFor cut.new s cs × (result ≡ slice_start cs s time) }
{
    let changes = epochs.last();
    if cut.changes == changes && cut.from <= time && time < cut.until {
        return cut.start;
    }
    let start = epochs.slice_start(s, time);
    *cut = Cut {
        changes,
        from: time,
        until: epochs.slice_end(s, time),
        start,
    };
    start
}
