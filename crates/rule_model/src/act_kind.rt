//! The acts of the service as one table: each kind with its number, its name, and what is fixed for it.

ghost use Rattle.std.specs.Prelude.{◌≡◌, ◌≤◌, false, true};
ghost use Rattle.rule_model.specs.Acts as spec;
ghost use Rattle.rule_model.specs.Acts.{fixed_for, is_asked, is_connect, is_disconnect, is_enter, is_leave, is_restart, kind_of, kind_named, kind_numbered, need_of, row_of, text_of};

use crate::Act;

/// The kind of an act. The names are those of Keystore2's AIDL interfaces.
#[derive(Clone, Copy, Debug, PartialEq, Eq)]
pub enum ActKind {
    Connect,
    Disconnect,
    GenerateKey,
    ImportKey,
    CreateOperation,
    UpdateAad,
    Update,
    Finish,
    Abort,
    GetKeyEntry,
    DeleteKey,
    Grant,
    Ungrant,
    GetNumberOfEntries,
    ListEntriesBatched,
    AddAuthToken,
    DeviceLocked,
    DeviceUnlocked,
    EarlyBootEnded,
    ClearNamespace,
    UserRemoved,
    Leave,
    Restart,
    UpgradeKey,
    ImportWrappedKey,
}

/// What is fixed for the acts of a kind.
#[derive(Clone, Copy, Debug, PartialEq, Eq)]
pub struct ActRow {
    /// its number in a request frame
    pub number: u8,
    /// a client asks for it; the others the service makes by itself
    pub asked: bool,
    /// a request frame can ask for it
    pub framed: bool,
    /// a client that has come makes it
    pub has_client: bool,
    /// it may be given up for want of memory
    pub takes_memory: bool,
    /// it may draw random bytes
    pub draws: bool,
    /// it settles first where an earlier change waits for that
    pub settles: bool,
    /// it enters an operation with an input, whose work comes back by a leave
    pub enters: bool,
    /// the most entries of a book that a call with it makes
    pub need: u64,
}

/// A call of a client by a frame: it takes memory, draws nothing, settles first, and makes an entry behind a settling.
const CALL: ActRow = ActRow {
    number: 0,
    asked: true,
    framed: true,
    has_client: true,
    takes_memory: true,
    draws: false,
    settles: true,
    enters: false,
    need: 2,
};

impl ActKind {
    /// The kinds in the order of their numbers.
    pub const ALL: [ActKind; 25] = [
        ActKind::Connect,
        ActKind::Disconnect,
        ActKind::GenerateKey,
        ActKind::ImportKey,
        ActKind::CreateOperation,
        ActKind::UpdateAad,
        ActKind::Update,
        ActKind::Finish,
        ActKind::Abort,
        ActKind::GetKeyEntry,
        ActKind::DeleteKey,
        ActKind::Grant,
        ActKind::Ungrant,
        ActKind::GetNumberOfEntries,
        ActKind::ListEntriesBatched,
        ActKind::AddAuthToken,
        ActKind::DeviceLocked,
        ActKind::DeviceUnlocked,
        ActKind::EarlyBootEnded,
        ActKind::ClearNamespace,
        ActKind::UserRemoved,
        ActKind::Leave,
        ActKind::Restart,
        ActKind::UpgradeKey,
        ActKind::ImportWrappedKey,
    ];

    /// What is fixed for the kind.
    pub fn row(self) -> ActRow
        ensures row { result ≡ row_of self }
        ensures few { result.need ≤ 3 }
    {
        match self {
            ActKind::Connect => ActRow {
                number: 1,
                has_client: false,
                need: 3,
                ..CALL
            },
            ActKind::Disconnect => ActRow {
                number: 2,
                framed: false,
                takes_memory: false,
                settles: false,
                need: 1,
                ..CALL
            },
            ActKind::GenerateKey => ActRow {
                number: 3,
                draws: true,
                ..CALL
            },
            ActKind::ImportKey => ActRow {
                number: 4,
                draws: true,
                ..CALL
            },
            ActKind::CreateOperation => ActRow {
                number: 5,
                draws: true,
                ..CALL
            },
            ActKind::UpdateAad => ActRow {
                number: 6,
                enters: true,
                need: 3,
                ..CALL
            },
            ActKind::Update => ActRow {
                number: 7,
                enters: true,
                need: 3,
                ..CALL
            },
            ActKind::Finish => ActRow {
                number: 8,
                enters: true,
                need: 3,
                ..CALL
            },
            ActKind::Abort => ActRow {
                number: 9,
                takes_memory: false,
                ..CALL
            },
            ActKind::GetKeyEntry => ActRow { number: 10, ..CALL },
            ActKind::DeleteKey => ActRow { number: 11, ..CALL },
            ActKind::Grant => ActRow { number: 12, ..CALL },
            ActKind::Ungrant => ActRow { number: 13, ..CALL },
            ActKind::GetNumberOfEntries => ActRow { number: 14, ..CALL },
            ActKind::ListEntriesBatched => ActRow { number: 15, ..CALL },
            ActKind::AddAuthToken => ActRow {
                number: 16,
                takes_memory: false,
                ..CALL
            },
            ActKind::DeviceLocked => ActRow {
                number: 17,
                takes_memory: false,
                ..CALL
            },
            ActKind::DeviceUnlocked => ActRow {
                number: 18,
                takes_memory: false,
                ..CALL
            },
            ActKind::EarlyBootEnded => ActRow {
                number: 19,
                takes_memory: false,
                ..CALL
            },
            ActKind::ClearNamespace => ActRow { number: 20, ..CALL },
            ActKind::UserRemoved => ActRow { number: 21, ..CALL },
            ActKind::Leave => ActRow {
                number: 22,
                asked: false,
                framed: false,
                has_client: false,
                takes_memory: false,
                settles: false,
                ..CALL
            },
            ActKind::Restart => ActRow {
                number: 23,
                asked: false,
                framed: false,
                has_client: false,
                ..CALL
            },
            ActKind::UpgradeKey => ActRow {
                number: 24,
                draws: true,
                ..CALL
            },
            ActKind::ImportWrappedKey => ActRow {
                number: 25,
                draws: true,
                ..CALL
            },
        }
    }

    /// The name of the act, as a script writes it.
    pub fn text(self) -> &'static str
        ensures { result.now ≡ text_of self }
    {
        match self {
            ActKind::Connect => "connect",
            ActKind::Disconnect => "disconnect",
            ActKind::GenerateKey => "generateKey",
            ActKind::ImportKey => "importKey",
            ActKind::CreateOperation => "createOperation",
            ActKind::UpdateAad => "updateAad",
            ActKind::Update => "update",
            ActKind::Finish => "finish",
            ActKind::Abort => "abort",
            ActKind::GetKeyEntry => "getKeyEntry",
            ActKind::DeleteKey => "deleteKey",
            ActKind::Grant => "grant",
            ActKind::Ungrant => "ungrant",
            ActKind::GetNumberOfEntries => "getNumberOfEntries",
            ActKind::ListEntriesBatched => "listEntriesBatched",
            ActKind::AddAuthToken => "addAuthToken",
            ActKind::DeviceLocked => "deviceLocked",
            ActKind::DeviceUnlocked => "deviceUnlocked",
            ActKind::EarlyBootEnded => "earlyBootEnded",
            ActKind::ClearNamespace => "clearNamespace",
            ActKind::UserRemoved => "userRemoved",
            ActKind::Leave => "leave",
            ActKind::Restart => "restart",
            ActKind::UpgradeKey => "upgradeKey",
            ActKind::ImportWrappedKey => "importWrappedKey",
        }
    }

    /// The kind of a name, and `None` where it names none.
    pub fn of_name(name: &str) -> Option<ActKind>
        ensures { result ≡ kind_named name.now }
    {
        ActKind::ALL
            .iter()
            .copied()
            .find(|kind| kind.text() == name)
    }

    /// The kind of a number in a frame, and `None` where no kind has it.
    pub fn of_number(number: u8) -> Option<ActKind>
        ensures { result ≡ kind_numbered number }
    {
        ActKind::ALL
            .iter()
            .copied()
            .find(|kind| kind.row().number == number)
    }
}

impl Act {
    /// The kind of the act.
    pub fn kind(&self) -> ActKind
        ensures { result ≡ kind_of self.now }
    {
        match self {
            Act::Connect { .. } => ActKind::Connect,
            Act::Disconnect => ActKind::Disconnect,
            Act::GenerateKey { .. } => ActKind::GenerateKey,
            Act::ImportKey { .. } => ActKind::ImportKey,
            Act::CreateOperation { .. } => ActKind::CreateOperation,
            Act::EnterAad { .. } => ActKind::UpdateAad,
            Act::EnterUpdate { .. } => ActKind::Update,
            Act::EnterFinish { .. } => ActKind::Finish,
            Act::Abort { .. } => ActKind::Abort,
            Act::GetKeyEntry { .. } => ActKind::GetKeyEntry,
            Act::DeleteKey { .. } => ActKind::DeleteKey,
            Act::Grant { .. } => ActKind::Grant,
            Act::Ungrant { .. } => ActKind::Ungrant,
            Act::GetNumberOfEntries { .. } => ActKind::GetNumberOfEntries,
            Act::ListEntriesBatched { .. } => ActKind::ListEntriesBatched,
            Act::AddAuthToken { .. } => ActKind::AddAuthToken,
            Act::DeviceLocked { .. } => ActKind::DeviceLocked,
            Act::DeviceUnlocked { .. } => ActKind::DeviceUnlocked,
            Act::EarlyBootEnded => ActKind::EarlyBootEnded,
            Act::ClearNamespace { .. } => ActKind::ClearNamespace,
            Act::UserRemoved { .. } => ActKind::UserRemoved,
            Act::Leave { .. } => ActKind::Leave,
            Act::Restart { .. } => ActKind::Restart,
            Act::UpgradeKey { .. } => ActKind::UpgradeKey,
            Act::ImportWrappedKey { .. } => ActKind::ImportWrappedKey,
        }
    }

    /// What is fixed for the act.
    pub fn row(&self) -> ActRow
        ensures row { result ≡ fixed_for self.now }
        ensures few { result.need ≤ 3 }
    {
        self.kind().row()
    }

    /// Whether a client comes by the act.
    pub fn is_connect(&self) -> bool
        ensures { result ≡ is_connect self.now }
    {
        match self {
            Act::Connect { .. } => true,
            _ => false,
        }
    }

    /// Whether a client goes by the act.
    pub fn is_disconnect(&self) -> bool
        ensures { result ≡ is_disconnect self.now }
    {
        match self {
            Act::Disconnect => true,
            _ => false,
        }
    }

    /// Whether the device starts again by the act.
    pub fn is_restart(&self) -> bool
        ensures { result ≡ is_restart self.now }
    {
        match self {
            Act::Restart { .. } => true,
            _ => false,
        }
    }

    /// Whether a ticket comes back by the act.
    pub fn is_leave(&self) -> bool
        ensures { result ≡ is_leave self.now }
    {
        match self {
            Act::Leave { .. } => true,
            _ => false,
        }
    }

    /// The ticket that comes back by the act.
    pub fn ticket(&self) -> Option<u64>
        ensures { result ≡ spec.left_by self.now }
    {
        match self {
            Act::Leave { ticket } => Some(*ticket),
            _ => None,
        }
    }

    /// Whether the act enters an operation.
    pub fn is_enter(&self) -> bool
        ensures { result ≡ is_enter self.now }
    {
        self.row().enters
    }

    /// Whether a client asks for the act.
    pub fn is_asked(&self) -> bool
        ensures { result ≡ is_asked self.now }
    {
        self.row().asked
    }

    /// Whether the act settles first, where an earlier change waits for that.
    pub fn settles(&self) -> bool
        ensures { result ≡ (fixed_for self.now).settles }
    {
        self.row().settles
    }

    /// The most entries of a book that a call with the act makes.
    pub fn need(&self) -> u64
        ensures need { result ≡ need_of self.now }
        ensures few { result ≤ 3 }
    {
        self.row().need
    }
}
