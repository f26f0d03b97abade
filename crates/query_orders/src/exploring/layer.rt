//! The states that orders of so many calls lead to, each once.
ghost use Rattle.std.specs.Prelude.{◌≡◌, ◌++◌, ◌∷◌, [], OnOk, OnErr, position};
ghost use Rattle.query_orders.specs.Private.Tables.{AreFirsts, has_words, heavier_at, words_hash};

use crate::exploring::node::Node;
use std::alloc::{AllocError, Global};
use std::collections::HashMap;
use std::hash::{FoldHasher, Hash, Hasher};
use std::marker::Model;

/// The place of the first node whose words have a hash, by the hash.
type Firsts = HashMap<u64, usize>;

/// States, each once: its node has the first order that leads to it, and how many orders do. A state is found by the hash of
/// its words, also among many.
#[derive(Drop)]
pub struct Layer {
    nodes: Vec<Node>,
    firsts: Firsts,
}

impl Model for Layer {
    ghost use Rattle.std.specs.Prelude.{List};
    ghost use Rattle.query_orders.specs.declared.exploring.node.Node.{Node};
    ghost use Rattle.query_orders.specs.Private.Tables.{AreFirsts};

    ghost Value = { List Node };

    ghost view = { λ l. l.nodes.items };

    ghost invariant = { λ l. AreFirsts l.firsts.entries l.nodes.items };
}

fn hash_of(words: &[u64]) -> u64
    ensures { result ≡ words_hash words.now }
{
    let mut state = FoldHasher::default();
    words.hash(&mut state);
    state.finish()
}

/// The place of the first node of a state, looked for among all.
fn find(nodes: &[Node], words: &[u64]) -> Option<usize>
    ensures { result ≡ position (has_words words.now) nodes.now }
{
    nodes.iter().position(|node| node.words.as_slice() == words)
}

/// The same, by the hash of the state's words. All are looked at only where other words have the same hash.
fn place_of(nodes: &[Node], firsts: &Firsts, hash: u64, words: &[u64]) -> Option<usize>
    requires hash { hash ≡ words_hash words.now }
    requires firsts { AreFirsts firsts.now.entries nodes.now }
    ensures { result ≡ position (has_words words.now) nodes.now }
{
    let first = firsts.get(&hash).copied()?;
    match nodes.get(first) {
        Some(node) if node.words.as_slice() == words => Some(first),
        _ => find(nodes, words),
    }
}

/// Adds to how many orders lead to the state of the node at a place.
fn add_weight(nodes: &mut Vec<Node>, place: usize, weight: u64)
    ensures { nodes.new.items ≡ heavier_at place weight nodes.old.items }
{
    if let Some(node) = nodes.get_mut(place) {
        node.weight = node.weight.saturating_add(weight);
    }
}

/// Puts a node at the end. Where memory is refused, all stays as it was.
fn add(nodes: &mut Vec<Node>, firsts: &mut Firsts, hash: u64, node: Node) -> Result<(), AllocError>
    requires hash { hash ≡ words_hash node.words.items }
    requires firsts { AreFirsts firsts.old.entries nodes.old.items }
    ensures nodes { OnOk result (nodes.new.items ≡ nodes.old.items ++ node ∷ []) }
    ensures nodes_stay { OnErr result (nodes.new.items ≡ nodes.old.items) }
    ensures firsts { AreFirsts firsts.new.entries nodes.new.items }
{
    let place = nodes.len();
    nodes.push(node)?;
    if firsts.contains_key(&hash) {
        return Ok(());
    }
    match firsts.insert(hash, place) {
        Ok(_) => Ok(()),
        Err(_) => {
            nodes.pop();
            Err(AllocError)
        }
    }
}

impl Layer {
    ghost use Rattle.std.specs.Prelude.{◌≡◌, [], OnOk};
    ghost use Rattle.query_orders.specs.Private.Tables.{with_node};

    /// No states.
    pub fn new(alloc: Global) -> Layer
        ensures { result ≡ [] }
    {
        Layer {
            nodes: Vec::new(alloc),
            firsts: HashMap::new(alloc),
        }
    }

    /// Puts a node at the end, or, where its state is known, its orders to those that lead there.
    pub fn note(&mut self, node: Node) -> Result<(), AllocError>
        ensures { OnOk result (self.new ≡ with_node self.old node) }
    {
        let hash = hash_of(node.words.as_slice());
        match place_of(&self.nodes, &self.firsts, hash, node.words.as_slice()) {
            Some(place) => add_weight(&mut self.nodes, place, node.weight),
            None => add(&mut self.nodes, &mut self.firsts, hash, node)?,
        }
        Ok(())
    }

    /// The nodes, in the order of the first orders that lead to them.
    pub fn nodes(&self) -> &[Node]
        ensures { result.now ≡ self.now }
    {
        self.nodes.as_slice()
    }
}
