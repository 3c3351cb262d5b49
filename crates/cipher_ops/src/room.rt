//! The work of a job and the memory that it needs.

ghost use Rattle.std.specs.Prelude.{◌≡◌, ℕ, ◌+◌, ◌≤◌, List, Option, if◌then◌else◌, length, IfOk};
ghost use Rattle.tags.specs.declared.limits.TheConstants.{OPERATION_BYTES};
ghost use Rattle.cipher_ops.specs.Output.{finish_output, update_output};
ghost use Rattle.cipher_ops.specs.Sizes as spec;

use std::alloc::Global;
use tags::{Bytes, NoMemory, Plan};

/// What a call of an operation brings to it.
#[derive(Drop)]
pub enum Work {
    /// The next bytes of the additional data of GCM
    Aad {
        input: Bytes,
    },
    /// The next bytes of the text
    Text {
        input: Bytes,
    },
    /// The last bytes of the text; and where a mac is verified, its signature
    Last {
        input: Bytes,
        signature: Option<Bytes>,
    },
}

/// A work with all memory that its run needs.
#[derive(Drop)]
pub struct JobRoom {
    pub(crate) work: Work,
    pub(crate) out: Vec<u8>,
    pub(crate) nothing: Bytes,
}

/// The most bytes that are out after `size` bytes of text.
fn piece_room(plan: Plan, size: usize) -> usize
    requires { size ≤ OPERATION_BYTES }
    ensures { result ≡ spec.piece_room plan size }
{
    match plan {
        Plan::Ecb { .. } => size + 16,
        Plan::Cbc { .. } => size + 16,
        Plan::Ctr => size + 16,
        Plan::Gcm { .. } => size,
        Plan::HmacSign { .. } => 0,
        Plan::HmacVerify { .. } => 0,
    }
}

/// The most bytes that the end of a text adds.
fn end_room(plan: Plan) -> usize
    ensures size { result ≡ spec.end_room plan }
    ensures most { result ≤ 255 }
{
    match plan {
        Plan::Ecb { .. } => 16,
        Plan::Cbc { .. } => 16,
        Plan::Ctr => 16,
        Plan::Gcm { seal, tag } => { if seal { tag as usize } else { 0 } }
        Plan::HmacSign { size, .. } => size as usize,
        Plan::HmacVerify { .. } => 0,
    }
}

/// How many bytes of text the output of a work is of.
fn taken(limited: bool, before: usize, size: usize) -> usize
    requires { before + size ≤ OPERATION_BYTES }
    ensures size { result ≡ spec.taken limited before size }
    ensures most { result ≤ OPERATION_BYTES }
{
    if limited { before + size } else { size }
}

/// The room for the output of a work.
fn job_room(plan: Plan, limited: bool, before: usize, work: &Work) -> usize
    requires { before + spec.own_text work.now ≤ OPERATION_BYTES }
    ensures { result ≡ spec.job_room plan limited before work.now }
{
    match work {
        Work::Aad { .. } => 0,
        Work::Text { input } => piece_room(plan, taken(limited, before, input.len())),
        Work::Last { input, .. } => {
            piece_room(plan, taken(limited, before, input.len())) + end_room(plan)
        }
    }
}

/// The most bytes that a finish gives of a text of which so many bytes were not given before. A tag has at most the 16 bytes of
/// a block.
fn finish_room(plan: Plan, size: usize) -> usize
    requires { size ≤ OPERATION_BYTES }
    ensures size { result ≡ spec.finish_room plan size }
    ensures most { result ≤ 1048656 }
{
    match plan {
        Plan::Ecb { .. } => size + 32,
        Plan::Cbc { .. } => size + 32,
        Plan::Ctr => size + 16,
        Plan::Gcm { seal, .. } => { if seal { size + 16 } else { size } }
        Plan::HmacSign { size, .. } => size as usize,
        Plan::HmacVerify { .. } => 0,
    }
}

/// How many bytes an update of so many bytes gives at most, on an operation of this plan and flag. It takes no memory.
pub fn most_of_update(plan: Plan, limited: bool, input: u64) -> u64
    requires { input ≤ OPERATION_BYTES }
    ensures size { result ≡ (if limited then 0 else spec.piece_room plan input) }
    ensures most { result ≤ 1048656 }
    ensures out { (key nonce before after : List ℕ) → length after ≡ length before + input →
        length (update_output plan limited key nonce before after) ≤ result }
{
    if limited {
        return 0;
    }
    piece_room(plan, input as usize) as u64
}

/// How many bytes a finish of so many bytes gives at most, on an operation of this plan and flag that has taken so many bytes of
/// text. It takes no memory.
pub fn most_of_finish(plan: Plan, limited: bool, text: u64, input: u64) -> u64
    requires { text + input ≤ OPERATION_BYTES }
    ensures size { result ≡ spec.finish_room plan (spec.taken limited text input) }
    ensures most { result ≤ 1048656 }
    ensures out { (key nonce aad before after : List ℕ) (signature : Option (List ℕ)) → length before ≡ text → length after ≡ text + input →
        IfOk (finish_output plan limited key nonce aad before after signature) (λ out. length out ≤ result) }
{
    finish_room(plan, taken(limited, text as usize, input as usize)) as u64
}

impl JobRoom {
    ghost use Rattle.cipher_ops.specs.Running.{IsRoom};

    /// Takes all memory that the run of this work needs on an operation of this plan and flag with `text` bytes of text
    /// so far, at most `OPERATION_BYTES` with the work's own.
    pub fn of(
        alloc: Global,
        plan: Plan,
        limited: bool,
        text: u64,
        work: Work,
    ) -> Result<JobRoom, NoMemory>
        requires { text + spec.own_text work ≤ OPERATION_BYTES }
        ensures { IfOk result (λ room. IsRoom room plan limited text work) }
    {
        let size = job_room(plan, limited, text as usize, &work);
        let out = vec![in alloc; 0; size]?;
        Ok(JobRoom {
            work,
            out,
            nothing: Bytes::empty(alloc),
        })
    }
}
