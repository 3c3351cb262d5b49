//! The range of a file that no sync has made last yet.

ghost use Rattle.std.specs.Prelude.{◌≡◌};
ghost use Rattle.file_disk.specs.Unsynced as spec;

/// What was written since the last sync that answered Ok: one range over all of it, as two places, and whether a sync failed since. Where
/// nothing was written the range has no byte. A write that failed counts, since it may have written a front.
#[derive(Clone, Copy, Debug, PartialEq, Eq)]
pub struct Unsynced {
    /// The first place of the range.
    pub from: u64,
    /// The place behind its last one.
    pub end: u64,
    /// Whether a sync failed since: the system may hold what was to be written for written then, and show it to readers.
    pub is_lost: bool,
}

impl Unsynced {
    /// Nothing was written, and no sync failed.
    pub(crate) const NONE: Unsynced = Unsynced {
        from: u64::MAX,
        end: 0,
        is_lost: false,
    };

    /// The range with these places too.
    pub(crate) fn with(self, at: u64, size: usize) -> Unsynced
        ensures { result ≡ spec.with self at size }
    {
        Unsynced {
            from: self.from.min(at),
            end: self.end.max(at.saturating_add(size as u64)),
            is_lost: self.is_lost,
        }
    }

    /// The range behind a sync: none where it answered Ok, and else the same, which may be lost.
    pub(crate) fn after_sync(self, ok: bool) -> Unsynced
        ensures { result ≡ spec.after_sync self ok }
    {
        if ok {
            Unsynced::NONE
        } else {
            Unsynced {
                is_lost: true,
                ..self
            }
        }
    }
}
