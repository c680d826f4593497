//! An office together with its history since it was opened.
ghost use Rattle.std.specs.Prelude.{◌≡◌, []};
ghost use Rattle.office_turns.specs.Since.{IsSince};

use crate::happening::Happening;
use crate::tied::{HasStory, WithStory};
use desk_traits::Disk;
use office_journal::KeptOffice;
use std::alloc::Global;
use std::snapshot::Snapshot;
use turn_lock::Storied;

/// An office as it was opened, and what happened to it since, in order.
#[derive(Drop)]
pub struct Story<D: Disk> {
    pub opened: Snapshot<KeptOffice<D>>,
    pub happenings: Vec<Happening<D>>,
}

impl<D: Disk> HasStory<Story<D>> for KeptOffice<D> {
    ghost agrees = { λ kept story. IsSince D.Disk story.opened.value kept story.happenings.items };
}

/// An office together with what happened to it since it was opened.
pub type SharedOffice<D> = WithStory<KeptOffice<D>, Story<D>>;

impl<D: Disk> WithStory<KeptOffice<D>, Story<D>> {
    /// Returns the office `kept` together with an empty history, to be shared by threads.
    pub fn open(alloc: Global, kept: KeptOffice<D>) -> Self
        ensures opened { result.story.opened.value ≡ kept }
        ensures kept { result.kept ≡ kept }
        ensures happenings { result.story.happenings.items ≡ [] }
    {
        kept.a_crash_leaves_the_history();
        let opened = Snapshot::of(&kept);
        WithStory {
            kept,
            story: Story {
                opened,
                happenings: Vec::new(alloc),
            },
        }
    }

    /// Returns the office as it is now, and drops the history of what happened to it.
    pub fn into_kept(self) -> KeptOffice<D>
        ensures same { result ≡ self.kept }
        ensures since { IsSince D.Disk self.story.opened.value result self.story.happenings.items }
    {
        let WithStory { kept, .. } = self;
        kept
    }
}

impl<D: Disk> Storied for WithStory<KeptOffice<D>, Story<D>> {
    type Base = KeptOffice<D>;

    type Entry = Happening<D>;

    ghost base = { λ t. t.story.opened.value };

    ghost story = { λ t. t.story.happenings.items };

    fn count(&self) -> u64 {
        self.story.happenings.len() as u64
    }
}
