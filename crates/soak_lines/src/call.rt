//! What a line of the load calls, by four words.

ghost use Rattle.std.specs.Prelude.{◌≡◌, ◌≤◌, ◌<◌, ◌^◌};
ghost use Rattle.soak_lines.specs.Calls as spec;

/// Four words of the generator, in the order in which they are drawn.
#[derive(Clone, Copy, Debug, PartialEq, Eq)]
pub struct DrawnWords {
    pub kind: u32,
    pub client: u32,
    pub op: u32,
    pub input: u32,
}

/// What a line of the load calls.
#[derive(Clone, Copy, Debug, PartialEq, Eq)]
pub enum SoakCall {
    /// client 1 begins a mac with the key `h`
    BeginMac,
    /// client 1 begins an encryption in CBC with the key `a`, its nonce being this word four times
    BeginCbc {
        word: u32,
    },
    /// client 2 begins a sealing in GCM with the key that is granted to it, its nonce being this word three times
    BeginGcm {
        word: u32,
    },
    /// client 1 begins a mac with the key `u`, which has a use limit
    BeginLimited,
    /// an update by `size` bytes of one value
    Update {
        client: u64,
        op: u64,
        size: u8,
        byte: u8,
    },
    /// a finish, likewise
    Finish {
        client: u64,
        op: u64,
        size: u8,
        byte: u8,
    },
    Abort {
        client: u64,
        op: u64,
    },
    /// the number of the client's keys
    Count {
        client: u64,
    },
}

impl DrawnWords {
    /// The call of these words, behind so many lines that begin an operation.
    pub fn call(self, begins: u64) -> SoakCall
        requires few { begins < 2 ^ 62 }
        ensures call { result ≡ spec.call_of begins self }
    {
        let client = 1 + u64::from(self.client % 2);
        let op = 1 + u64::from(self.op) % (begins + 1);
        let size = (self.input % 64) as u8;
        let byte = (self.input % 256) as u8;
        match self.kind % 10 {
            0 => SoakCall::BeginMac,
            1 => SoakCall::BeginCbc { word: self.input },
            2 => SoakCall::BeginGcm { word: self.input },
            3 => SoakCall::BeginLimited,
            4 => SoakCall::Update {
                client,
                op,
                size,
                byte,
            },
            5 => SoakCall::Update {
                client,
                op,
                size,
                byte,
            },
            6 => SoakCall::Update {
                client,
                op,
                size,
                byte,
            },
            7 => SoakCall::Finish {
                client,
                op,
                size,
                byte,
            },
            8 => SoakCall::Abort { client, op },
            _ => SoakCall::Count { client },
        }
    }
}

impl SoakCall {
    /// Whether the line begins an operation.
    pub fn is_begin(self) -> bool
        ensures { result ≡ spec.is_begin self }
    {
        match self {
            SoakCall::BeginMac => true,
            SoakCall::BeginCbc { .. } => true,
            SoakCall::BeginGcm { .. } => true,
            SoakCall::BeginLimited => true,
            _ => false,
        }
    }
}
