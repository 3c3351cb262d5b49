//! What a line of a script is answered.

ghost use Rattle.std.specs.Prelude.{◌≡◌, ℕ, List, IfOk};
ghost use Rattle.script_lines.specs.Replies.{line_of as spec_line_of};
ghost use Rattle.keystore_run.specs.Answers as spec;
ghost use Rattle.keystore_run.specs.Answers.{IsAnswer, IsReplied};
ghost use Rattle.keystore_run.specs.Written.{malformed_text as spec_malformed_text};

use crate::written::Written;
use rule_model::{Reply, Stepped};
use script_lines::{line_of, malformed_line};
use std::alloc::Global;
use tags::{Bytes, Code, NoMemory, Settled};

/// What a line of a script is answered.
#[derive(Drop)]
pub struct Answer {
    /// how an earlier change was settled, where that was due: its line stands before the reply line
    pub settled: Option<Settled>,
    /// the code of the reply, where it is no admission
    pub code: Option<Code>,
    /// what is written: all lines, each with its LF
    pub text: Bytes,
}

/// The code of a reply, where it is no admission.
fn code_of(reply: &Reply) -> Option<Code>
    ensures { result ≡ spec.code_of reply.now }
{
    match reply {
        Reply::Done(_) => None,
        Reply::Broken { code, .. } => Some(*code),
        Reply::Stopped { code } => Some(*code),
    }
}

/// The answer of a line whose last step is this, with the settling of its first one.
pub fn answer_of(alloc: Global, stepped: Stepped) -> Result<Answer, NoMemory>
    ensures text { IfOk result (λ answer. answer.text ≡ spec_line_of stepped.settled stepped.reply) }
    ensures is { IfOk result IsReplied }
{
    let line = line_of(alloc, &stepped);
    with_text(stepped, line)
}

/// The answer of a line whose last step is this, with this text.
pub fn with_text(stepped: Stepped, text: Result<Bytes, NoMemory>) -> Result<Answer, NoMemory>
    ensures text { (said : List ℕ) → IfOk text (λ t. t ≡ said) → IfOk result (λ answer. answer.text ≡ said) }
    ensures settled { IfOk result (λ answer. answer.settled ≡ stepped.settled) }
    ensures code { IfOk result (λ answer. answer.code ≡ spec.code_of stepped.reply) }
{
    let settled = stepped.settled;
    let code = code_of(&stepped.reply);
    drop(stepped);
    match text {
        Ok(text) => Ok(Answer {
            settled,
            code,
            text,
        }),
        Err(NoMemory) => Err(NoMemory),
    }
}

/// What is written of a line that spells no event.
fn malformed_text(written: Written) -> &'static [u8]
    ensures { result.now ≡ spec_malformed_text written }
{
    match written {
        Written::Replies => malformed_line(),
        Written::Trace => &[],
    }
}

/// The answer of a line that spells no event.
pub fn malformed(alloc: Global, written: Written) -> Result<Answer, NoMemory>
    ensures text { IfOk result (λ answer. answer.text ≡ spec_malformed_text written) }
    ensures is { IfOk result (IsAnswer written) }
{
    let text = Bytes::copy_of(alloc, malformed_text(written))?;
    Ok(Answer {
        settled: None,
        code: Some(Code::InvalidArgument),
        text,
    })
}
