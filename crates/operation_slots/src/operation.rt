//! An operation as a slot holds it.

ghost use Rattle.std.specs.Prelude.{◌≡◌, Some};

/// The number of an operation.
pub type OpId = u64;

/// An operation that is held. `Slots` hands out none: contracts see these.
#[derive(Drop)]
pub struct SlotOperation<T> {
    pub number: OpId,
    /// whose operation it is
    pub uid: u32,
    /// the connection that began it
    pub client: u64,
    /// when it began or was last given back, by the caller's count
    pub stamp: u64,
    /// its value; None while it is busy
    pub value: Option<T>,
}

/// What `Slots::take` finds.
#[must_use]
#[derive(Drop)]
pub enum Taken<T> {
    /// the operation was idle; this is its value, and it is busy now
    Found(T),
    /// the operation is held and busy
    Busy,
    /// no such operation is held
    Absent,
}

impl<T> SlotOperation<T> {
    ghost use Rattle.operation_slots.specs.Table.{is_idle, idle_value};

    /// Whether its value is there.
    pub(crate) fn is_idle(&self) -> bool
        ensures { result ≡ is_idle self.now }
    {
        self.value.is_some()
    }

    /// Its value, where it is idle.
    pub(crate) fn into_value(self) -> Option<T>
        ensures { result ≡ idle_value (Some self) }
    {
        let SlotOperation {
            number: _,
            uid: _,
            client: _,
            stamp: _,
            value,
        } = self;
        value
    }
}
