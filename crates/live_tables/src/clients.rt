//! The connected clients.

ghost use Rattle.std.specs.Prelude.{◌≡◌, ◌+◌, ◌^◌, ◌<◌, IfOk, OnErr, None, ℕ};
ghost use Rattle.rule_model.specs.declared.entry_change.ClientChange.TheVariants.{AllGo, Comes, Goes};
ghost use Rattle.live_tables.specs.Clients.{ChangesClients, SameClients, clients_given, uid_in};

use std::alloc::Global;
use std::collections::BTreeMap;
use tags::NoMemory;

/// The connected clients, each with the uid that it came with.
#[derive(Drop)]
pub struct Clients {
    uids: BTreeMap<u64, u32>,
    made: u64,
}

impl Clients {
    /// No clients, of which none was made.
    pub fn new(alloc: Global) -> Clients
        ensures uids { (client : ℕ) → uid_in result client ≡ None }
        ensures given { clients_given result ≡ 0 }
    {
        Clients {
            uids: BTreeMap::new(alloc),
            made: 0,
        }
    }

    /// The uid of a connected client.
    pub fn uid_of(&self, client: u64) -> Option<u32>
        ensures { result ≡ uid_in self.now client }
    {
        self.uids.get(&client).copied()
    }

    /// Takes in a new client and answers its number.
    pub fn connect(&mut self, uid: u32) -> Result<u64, NoMemory>
        requires { clients_given self.old < 2 ^ 63 }
        ensures number { IfOk result (λ client. client ≡ clients_given self.old + 1) }
        ensures given { IfOk result (λ client. clients_given self.new ≡ client) }
        ensures comes { IfOk result (λ client. ChangesClients (Comes client uid) self.old self.new) }
        ensures err { OnErr result (SameClients self.old self.new) }
    {
        let client = self.made + 1;
        self.uids.insert(client, uid)?;
        self.made = client;
        Ok(client)
    }

    /// Lets all clients go.
    pub fn clear(&mut self)
        ensures goes { ChangesClients AllGo self.old self.new }
        ensures given { clients_given self.new ≡ clients_given self.old }
    {
        self.uids.clear();
    }

    /// Lets a client go, where it is connected.
    pub fn disconnect(&mut self, client: u64)
        ensures goes { ChangesClients (Goes client) self.old self.new }
        ensures given { clients_given self.new ≡ clients_given self.old }
    {
        let _ = self.uids.remove(&client);
    }
}
