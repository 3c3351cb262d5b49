//! The line that a reply spells.

ghost use Rattle.std.specs.Prelude.{◌≡◌, IfOk, OnOk};
ghost use Rattle.script_lines.specs.Replies.{with_numbers, with_bytes, reply_members as spec_reply_members, settled_members, settled_line as spec_settled_line, line_of as spec_line_of, malformed_line as spec_malformed_line};
ghost use Rattle.line_members.specs.Objects.{members_in};
ghost use Rattle.line_members.specs.Values.{object_line};

use line_members::WrittenObject;
use rule_model::{Fields, Reply, Stepped};
use std::alloc::{AllocError, Global};
use tags::{Bytes, NoMemory, Settled};

/// The answer to a line that spells no event.
const MALFORMED_LINE: &[u8] = b"{\"code\":20,\"rule\":\"L1\"}\n";

/// The answer to a line that spells no event. It takes no memory.
pub fn malformed_line() -> &'static [u8]
    ensures { result.now ≡ spec_malformed_line }
{
    MALFORMED_LINE
}

/// The lines of a step: `{"settled":"kept"}` or `{"settled":"lost"}` where it settled an earlier change, and the
/// reply as a compact JSON object with its members in byte order; each ends with LF.
pub fn line_of(alloc: Global, stepped: &Stepped) -> Result<Bytes, NoMemory>
    ensures { IfOk result (λ line. line ≡ spec_line_of stepped.now.settled stepped.now.reply) }
{
    let mut line = settled_line(alloc, stepped.settled)?;
    let reply = reply_line(alloc, &stepped.reply)?;
    line.extend_from_slice(reply.as_slice())?;
    Ok(Bytes::of(line))
}

fn settled_line(alloc: Global, settled: Option<Settled>) -> Result<Vec<u8>, AllocError>
    ensures { IfOk result (λ line. line.items ≡ spec_settled_line settled) }
{
    match settled {
        None => Ok(Vec::new(alloc)),
        Some(settled) => settled_object(alloc, settled)?.line(),
    }
}

/// The object that says how an earlier change was settled.
pub fn settled_object(alloc: Global, settled: Settled) -> Result<WrittenObject, AllocError>
    ensures { IfOk result (λ object. members_in object ≡ settled_members settled) }
{
    let text = match settled {
        Settled::Kept => "kept",
        Settled::Lost => "lost",
    };
    let mut object = WrittenObject::new(alloc);
    object.put_str("settled", text)?;
    Ok(object)
}

fn reply_line(alloc: Global, reply: &Reply) -> Result<Vec<u8>, AllocError>
    ensures { IfOk result (λ line. line.items ≡ object_line (spec_reply_members reply.now)) }
{
    reply_object(alloc, reply)?.line()
}

/// The object of a reply: `code`, `rule` where one is broken, and each field that there is.
pub fn reply_object(alloc: Global, reply: &Reply) -> Result<WrittenObject, AllocError>
    ensures { IfOk result (λ object. members_in object ≡ spec_reply_members reply.now) }
{
    let mut object = WrittenObject::new(alloc);
    match reply {
        Reply::Done(fields) => {
            object.put_signed("code", 0)?;
            put_numbers(&mut object, fields)?;
            put_bytes(&mut object, fields)?;
        }
        Reply::Broken { rule, code } => {
            let rule = format!(in alloc; "{rule}")?;
            object.put_signed("code", code.number())?;
            object.put_str("rule", rule.as_str())?;
        }
        Reply::Stopped { code } => object.put_signed("code", code.number())?,
    }
    Ok(object)
}

fn put_numbers(object: &mut WrittenObject, fields: &Fields) -> Result<(), AllocError>
    ensures { OnOk result (members_in object.new ≡ with_numbers fields.now (members_in object.old)) }
{
    object.put_number_if("client", fields.client)?;
    object.put_number_if("key", fields.key)?;
    object.put_number_if("op", fields.op)?;
    object.put_number_if("challenge", fields.challenge)?;
    object.put_number_if("ticket", fields.ticket)?;
    object.put_number_if("pruned", fields.pruned)?;
    object.put_number_if("grant", fields.grant)?;
    object.put_number_if("count", fields.count)?;
    object.put_number_if("uses", fields.uses.map(u64::from))?;
    object.put_number_if("domain", fields.domain.map(u64::from))?;
    object.put_number_if("nspace", fields.nspace)
}

fn put_bytes(object: &mut WrittenObject, fields: &Fields) -> Result<(), AllocError>
    ensures { OnOk result (members_in object.new ≡ with_bytes fields.now (members_in object.old)) }
{
    object.put_text_if("alias", &fields.alias)?;
    object.put_hex_if("nonce", &fields.nonce)?;
    object.put_hex_if("out", &fields.out)?;
    object.put_hex_if("blob", &fields.blob)?;
    object.put_hex_if("list", &fields.list)?;
    object.put_entries_if("entries", &fields.entries)
}
