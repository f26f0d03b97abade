//! How many clients a shared kernel has.
ghost use Rattle.std.specs.Prelude.{◌≡◌};

use crate::Naming;
use std::marker::PhantomData;

/// The number of clients, which is that of the ledger's parts.
#[derive(Drop)]
pub struct ClientCount<N: Naming> {
    clients: u32,
    of: PhantomData<N>,
    ghost all: { clients ≡ N.parts },
}

impl<N: Naming> ClientCount<N> {
    /// The ledger has a part for each client.
    pub fn new(clients: u32) -> ClientCount<N>
        requires { clients ≡ N.parts }
    {
        ClientCount {
            clients,
            of: PhantomData,
        }
    }

    /// How many clients were started.
    pub fn clients(&self) -> u32
        ensures { result ≡ N.parts }
    {
        self.clients
    }
}
