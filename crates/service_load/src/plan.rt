//! What the threads of a load do.

/// A call of a thread. The key of its own is named by the number of its pass: a0 for the first, a1 for the second, b0 for the eleventh.
#[derive(Clone, Copy, Debug, PartialEq, Eq)]
pub enum LoadCall {
    /// A client comes.
    Connect,
    /// A key of its own is imported.
    Import,
    /// The key that all threads use is imported, which five uses end.
    ImportShared,
    /// A mac is begun with its own key.
    Begin,
    /// A mac is begun with the key that all use.
    BeginShared,
    /// 16 KiB come for the operation that was begun last.
    Update,
    /// "Hi There" comes for it, and ends it.
    Finish,
    /// Its keys are counted.
    Count,
    /// The client goes.
    Disconnect,
}

/// The calls of the first thread and those of each other one, which begins when the first has made them or is held; then those of
/// a round, which each thread makes so often as the load says; then the last ones.
#[derive(Clone, Copy, Debug)]
pub struct LoadPlan {
    pub first: &'static [LoadCall],
    pub others: &'static [LoadCall],
    pub round: &'static [LoadCall],
    pub last: &'static [LoadCall],
    /// whether the gate holds each work until another thread has made its first calls
    pub holds: bool,
}

/// Each thread makes short macs with a key of its own.
pub static MACS: LoadPlan = LoadPlan {
    first: &[LoadCall::Connect, LoadCall::Import],
    others: &[LoadCall::Connect, LoadCall::Import],
    round: &[LoadCall::Begin, LoadCall::Finish],
    last: &[],
    holds: false,
};

/// Each thread makes macs of long texts.
pub static UPDATES: LoadPlan = LoadPlan {
    first: &[LoadCall::Connect, LoadCall::Import],
    others: &[LoadCall::Connect, LoadCall::Import],
    round: &[
        LoadCall::Begin,
        LoadCall::Update,
        LoadCall::Update,
        LoadCall::Update,
        LoadCall::Update,
        LoadCall::Update,
        LoadCall::Update,
        LoadCall::Update,
        LoadCall::Update,
        LoadCall::Update,
        LoadCall::Update,
        LoadCall::Update,
        LoadCall::Update,
        LoadCall::Update,
        LoadCall::Update,
        LoadCall::Update,
        LoadCall::Update,
        LoadCall::Finish,
    ],
    last: &[],
    holds: false,
};

/// Each thread makes macs with a key of its own, and tries as many with one that all use.
pub static USES: LoadPlan = LoadPlan {
    first: &[LoadCall::Connect, LoadCall::ImportShared, LoadCall::Import],
    others: &[LoadCall::Connect, LoadCall::Import],
    round: &[
        LoadCall::Begin,
        LoadCall::Finish,
        LoadCall::BeginShared,
        LoadCall::Finish,
    ],
    last: &[],
    holds: false,
};

impl LoadPlan {
    /// The first calls of the thread with this number.
    pub(crate) fn beginning(&self, number: u64) -> &'static [LoadCall] {
        if number == 0 { self.first } else { self.others }
    }
}
