//! What an act answers.

ghost use Rattle.std.specs.Prelude.{◌≡◌, [], None, Some};
ghost use Rattle.tags.specs.declared.code.Code.TheVariants as codes;
ghost use Rattle.rule_model.specs.declared.reply.Reply.TheVariants as replies;
ghost use Rattle.rule_model.specs.Replies.{no_fields};

use cipher_ops::Job;
use rule_model::{Fields, NO_FIELDS, Reply};
use std::alloc::Global;
use tags::{Bytes, Code, Rule};

/// The answer to an event, with the job of a work that enters, and the bytes that were drawn for it.
#[derive(Drop)]
pub struct Answered {
    pub reply: Reply,
    pub job: Option<Job>,
    pub drawn: Bytes,
}

impl Answered {
    /// An answer for which nothing was drawn. It takes no memory.
    pub fn undrawn(alloc: Global, reply: Reply) -> Answered
        ensures reply { result.reply ≡ reply }
        ensures job { result.job ≡ None }
        ensures drawn { result.drawn ≡ [] }
    {
        Answered {
            reply,
            job: None,
            drawn: Bytes::empty(alloc),
        }
    }

    /// The answer of a work that enters under a ticket. It takes no memory.
    pub fn entered(alloc: Global, ticket: u64, job: Job) -> Answered
        ensures reply { result.reply ≡ replies.Done (record no_fields { ticket = Some ticket }) }
        ensures job { result.job ≡ Some job }
        ensures drawn { result.drawn ≡ [] }
    {
        Answered {
            reply: Reply::Done(Fields {
                ticket: Some(ticket),
                ..NO_FIELDS
            }),
            job: Some(job),
            drawn: Bytes::empty(alloc),
        }
    }

    /// The answer of a rule that does not hold. It takes no memory.
    pub fn refused(alloc: Global, rule: Rule, code: Code) -> Answered
        ensures reply { result.reply ≡ replies.Broken rule code }
        ensures job { result.job ≡ None }
        ensures drawn { result.drawn ≡ [] }
    {
        Answered::undrawn(alloc, Reply::Broken { rule, code })
    }

    /// The answer of a call that something else than a rule stopped. It takes no memory.
    pub fn stopped(alloc: Global, code: Code) -> Answered
        ensures reply { result.reply ≡ replies.Stopped code }
        ensures job { result.job ≡ None }
        ensures drawn { result.drawn ≡ [] }
    {
        Answered::undrawn(alloc, Reply::Stopped { code })
    }

    /// The answer of a call that is given up for want of memory; what was drawn is thrown away.
    pub fn without_memory(drawn: Bytes) -> Answered
        ensures reply { result.reply ≡ replies.Stopped codes.MemoryAllocationFailed }
        ensures job { result.job ≡ None }
        ensures drawn { result.drawn ≡ drawn }
    {
        Answered {
            reply: Reply::Stopped {
                code: Code::MemoryAllocationFailed,
            },
            job: None,
            drawn,
        }
    }

    /// The answer of a call whose draw failed; what was drawn before is thrown away.
    pub fn without_entropy(drawn: Bytes) -> Answered
        ensures reply { result.reply ≡ replies.Stopped codes.EntropyFault }
        ensures job { result.job ≡ None }
        ensures drawn { result.drawn ≡ drawn }
    {
        Answered {
            reply: Reply::Stopped {
                code: Code::EntropyFault,
            },
            job: None,
            drawn,
        }
    }
}
