//! The text of a line of the load.

ghost use Rattle.std.specs.Prelude.{◌≡◌, IfOk, ◌<◌, ◌+◌, ◌^◌, string_bytes};
ghost use Rattle.hex.specs.Hex.{encode_lower};
ghost use Rattle.soak_lines.specs.Lines as spec;

use crate::call::SoakCall;
use std::alloc::{AllocError, Global};

/// A line of the load: its number in the script, from 1, and what it calls.
#[derive(Clone, Copy, Debug, PartialEq, Eq)]
pub struct SoakLine {
    pub number: u64,
    pub call: SoakCall,
}

/// The client that makes a call.
fn client_of(call: SoakCall) -> u64
    ensures { result ≡ spec.client_in call }
{
    match call {
        SoakCall::BeginGcm { .. } => 2,
        SoakCall::Update { client, .. } => client,
        SoakCall::Finish { client, .. } => client,
        SoakCall::Abort { client, .. } => client,
        SoakCall::Count { client } => client,
        _ => 1,
    }
}

/// A word as eight hex digits.
fn hex_of_word(alloc: Global, word: u32) -> Result<String, AllocError>
    ensures { IfOk result (λ text. string_bytes text ≡ spec.hex_of_word word) }
{
    hex::encode(alloc, word.to_be_bytes())
}

/// So many bytes of one value as hex digits.
fn hex_of_input(alloc: Global, size: u8, byte: u8) -> Result<String, AllocError>
    ensures { IfOk result (λ text. string_bytes text ≡ spec.hex_of_input size byte) }
{
    hex::encode(alloc, vec![in alloc; byte; usize::from(size)]?)
}

/// The members of a call behind the client.
fn members_of(alloc: Global, call: SoakCall) -> Result<String, AllocError>
    ensures { IfOk result (λ text. string_bytes text ≡ spec.members_of call) }
{
    match call {
        SoakCall::BeginMac => format!(in alloc;
            "\"do\":\"createOperation\",\"key\":{{\"domain\":0,\"alias\":\"h\"}},\"params\":[[\"PURPOSE\",2],[\"MAC_LENGTH\",256]]"
        ),
        SoakCall::BeginCbc { word } => {
            let nonce = hex_of_word(alloc, word)?;
            format!(in alloc;
                "\"do\":\"createOperation\",\"key\":{{\"domain\":0,\"alias\":\"a\"}},\"params\":[[\"PURPOSE\",0],[\"BLOCK_MODE\",2],[\"PADDING\",64],[\"NONCE\",\"{nonce}{nonce}{nonce}{nonce}\"]]"
            )
        }
        SoakCall::BeginGcm { word } => {
            let nonce = hex_of_word(alloc, word)?;
            format!(in alloc;
                "\"do\":\"createOperation\",\"key\":{{\"domain\":1,\"nspace\":1}},\"params\":[[\"PURPOSE\",0],[\"BLOCK_MODE\",32],[\"PADDING\",1],[\"MAC_LENGTH\",128],[\"NONCE\",\"{nonce}{nonce}{nonce}\"]]"
            )
        }
        SoakCall::BeginLimited => format!(in alloc;
            "\"do\":\"createOperation\",\"key\":{{\"domain\":0,\"alias\":\"u\"}},\"params\":[[\"PURPOSE\",2],[\"MAC_LENGTH\",256]]"
        ),
        SoakCall::Update { op, size, byte, .. } => {
            let input = hex_of_input(alloc, size, byte)?;
            format!(in alloc; "\"do\":\"update\",\"op\":{op},\"input\":\"{input}\"")
        }
        SoakCall::Finish { op, size, byte, .. } => {
            let input = hex_of_input(alloc, size, byte)?;
            format!(in alloc; "\"do\":\"finish\",\"op\":{op},\"input\":\"{input}\"")
        }
        SoakCall::Abort { op, .. } => format!(in alloc; "\"do\":\"abort\",\"op\":{op}"),
        SoakCall::Count { .. } => format!(in alloc; "\"do\":\"getNumberOfEntries\",\"domain\":0"),
    }
}

impl SoakLine {
    /// The line as a script has it, without its LF: a JSON object (RFC 8259). Its reading is its number and a thousand more.
    pub fn text(self, alloc: Global) -> Result<String, AllocError>
        requires few { self.number + 1000 < 2 ^ 64 }
        ensures text { IfOk result (λ text. string_bytes text ≡ spec.text_of self) }
    {
        let wall = self.number + 1000;
        let client = client_of(self.call);
        let members = members_of(alloc, self.call)?;
        format!(in alloc;
            "{{\"t\":[{},{wall}],\"c\":{client},{members}}}",
            self.number
        )
    }
}
