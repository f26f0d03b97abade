//! Orders of clients that share their beginnings.
use std::alloc::{AllocError, Global};
use std::marker::Model;
use std::rc::Rc;

/// An order of clients. One that is longer by a client shares the whole beginning, so that it takes as little time and memory
/// after many calls as after few.
#[cycle(order)]
pub struct Order {
    last: Option<Rc<Link>>,
}

/// The last client of an order, behind the order of those before it.
#[cycle(order)]
#[derive(Drop)]
struct Link {
    before: Order,
    client: usize,
}

impl Model for Order {
    ghost use Rattle.std.specs.Prelude.{List, ℕ, length};

    ghost Value = { List ℕ };

    ghost use Rattle.query_orders.specs.Links.{clients_to};

    ghost view = { λ o. clients_to o.last };

    ghost size = { length };

    ghost use Rattle.std.proofs.Common.{arith, length-append};

    ghost size_decreases = { λ a h. Prim.grind (arith, length-append) };
}

impl Order {
    ghost use Rattle.std.specs.Prelude.{◌≡◌, ◌++◌, ◌∷◌, [], IfNone, IfOk, IfSome};
    ghost use Rattle.query_orders.specs.Links.{clients_to};

    /// The order of no clients.
    pub fn new() -> Order
        ensures { result ≡ [] }
    {
        Order { last: None }
    }

    /// The same order, which takes no memory of its own.
    ///
    /// # Errors
    ///
    /// The order is shared 2^64 - 1 times already.
    pub fn share(&self) -> Result<Order, AllocError>
        ensures { IfOk result (λ order. order ≡ self.now) }
    {
        let last = match &self.last {
            Some(link) => Some(link.clone()?),
            None => None,
        };
        Ok(Order { last })
    }

    /// The order with one client more.
    pub fn longer(&self, alloc: Global, client: usize) -> Result<Order, AllocError>
        ensures { IfOk result (λ longer. longer ≡ self.now ++ client ∷ []) }
    {
        let before = self.share()?;
        let link = Rc::new(alloc, Link { before, client })?;
        Ok(Order { last: Some(link) })
    }

    /// The last client, with the order before it.
    fn last(&self) -> Option<&Link>
        ensures none { IfNone result (self.now ≡ []) }
        ensures some { IfSome result (λ link. self.now ≡ link.now.before ++ link.now.client ∷ []) }
    {
        match &self.last {
            Some(link) => Some(link.as_ref()),
            None => None,
        }
    }

    /// The clients, the first one first. It takes time in proportion to how many they are.
    pub fn clients(&self, alloc: Global) -> Result<Vec<usize>, AllocError>
        ensures { IfOk result (λ clients. clients.items ≡ self.now) }
    {
        let mut clients = Vec::new(alloc);
        let mut rest = self;
        while let Some(link) = rest.last() {
            clients.push(link.client)?;
            rest = &link.before;
        }
        clients.reverse();
        Ok(clients)
    }

    /// What the order ends with.
    fn into_last(self) -> Option<Rc<Link>>
        ensures { clients_to result ≡ self }
    {
        let Order { last } = self;
        last
    }
}

/// A loop, so that the end of a long order needs no deep stack.
impl Drop for Order {
    fn drop(self) {
        let Order { last } = self;
        let mut rest = last;
        while let Some(link) = rest {
            rest = match Rc::into_inner(link) {
                Some(link) => link.before.into_last(),
                None => None,
            };
        }
    }
}
