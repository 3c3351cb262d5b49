//! Room for a copy of a reply, which is taken before the reply is known.

ghost use Rattle.std.specs.Prelude.{◌≡◌, IfOk};
ghost use Rattle.rule_model.specs.ReplyRooms.{Fits, FieldsFit, no_sizes, sizes_of};

use crate::{Act, FieldSizes, Fields, NO_SIZES, Reply};
use entries::EntriesRoom;
use std::alloc::Global;
use std::marker::Model;
use tags::NoMemory;
use texts::TextRoom;

mod entries;
mod texts;

/// Room for a copy of each reply whose fields are no longer than it says. It is seen as those sizes.
#[derive(Drop)]
pub struct ReplyRoom {
    sizes: FieldSizes,
    alias: TextRoom,
    nonce: TextRoom,
    out: TextRoom,
    blob: TextRoom,
    list: TextRoom,
    entries: EntriesRoom,
    ghost alias_is: { alias.most ≡ sizes.alias },
    ghost nonce_is: { nonce.most ≡ sizes.nonce },
    ghost out_is: { out.most ≡ sizes.out },
    ghost blob_is: { blob.most ≡ sizes.blob },
    ghost list_is: { list.most ≡ sizes.list },
    ghost entries_is: { entries.most ≡ sizes.entries },
}

impl Model for ReplyRoom {
    ghost use Rattle.rule_model.specs.declared.field_sizes.FieldSizes.{FieldSizes};

    ghost Value = { FieldSizes };

    ghost view = { λ room. room.sizes };
}

impl ReplyRoom {
    /// Room for every reply that such an act can have, with an output of at most `out` bytes.
    pub fn of(alloc: Global, act: &Act, out: u64) -> Result<ReplyRoom, NoMemory>
        ensures { IfOk result (λ room. room ≡ sizes_of act.now out) }
    {
        ReplyRoom::with(alloc, FieldSizes::of(act, out))
    }

    /// Room for every reply without a field of bytes. It takes no memory.
    pub fn empty(alloc: Global) -> ReplyRoom
        ensures { result ≡ no_sizes }
    {
        ReplyRoom {
            sizes: NO_SIZES,
            alias: TextRoom::empty(alloc),
            nonce: TextRoom::empty(alloc),
            out: TextRoom::empty(alloc),
            blob: TextRoom::empty(alloc),
            list: TextRoom::empty(alloc),
            entries: EntriesRoom::empty(alloc),
        }
    }

    /// Room for every reply whose fields are no longer than these sizes.
    fn with(alloc: Global, sizes: FieldSizes) -> Result<ReplyRoom, NoMemory>
        ensures { IfOk result (λ room. room ≡ sizes) }
    {
        let alias = TextRoom::of(alloc, sizes.alias)?;
        let nonce = TextRoom::of(alloc, sizes.nonce)?;
        let out = TextRoom::of(alloc, sizes.out)?;
        let blob = TextRoom::of(alloc, sizes.blob)?;
        let list = TextRoom::of(alloc, sizes.list)?;
        let entries = EntriesRoom::of(alloc, sizes.entries)?;
        Ok(ReplyRoom {
            sizes,
            alias,
            nonce,
            out,
            blob,
            list,
            entries,
        })
    }

    /// An equal reply, of one that fits. It takes no memory.
    pub fn copy(self, reply: &Reply) -> Reply
        requires fits { Fits self reply.now }
        ensures copy { result ≡ reply.now }
    {
        match reply {
            Reply::Done(fields) => Reply::Done(self.copy_fields(fields)),
            Reply::Broken { rule, code } => Reply::Broken {
                rule: *rule,
                code: *code,
            },
            Reply::Stopped { code } => Reply::Stopped { code: *code },
        }
    }

    fn copy_fields(self, fields: &Fields) -> Fields
        requires fits { FieldsFit self fields.now }
        ensures copy { result ≡ fields.now }
    {
        let ReplyRoom {
            alias,
            nonce,
            out,
            blob,
            list,
            entries,
            ..
        } = self;
        Fields {
            client: fields.client,
            key: fields.key,
            op: fields.op,
            challenge: fields.challenge,
            ticket: fields.ticket,
            pruned: fields.pruned,
            grant: fields.grant,
            count: fields.count,
            uses: fields.uses,
            domain: fields.domain,
            nspace: fields.nspace,
            alias: alias.copy_field(&fields.alias),
            nonce: nonce.copy_field(&fields.nonce),
            out: out.copy_field(&fields.out),
            blob: blob.copy_field(&fields.blob),
            list: list.copy_field(&fields.list),
            entries: entries.copy_field(&fields.entries),
        }
    }
}
