//! The exploration of each group of clients by itself.
ghost use Rattle.std.specs.Prelude.{◌≡◌, ℕ, IfOk, List, map};
ghost use Rattle.std.specs.List.{AllByRecursion as Each};
ghost use Rattle.kernel_abstract.specs.State.{State, shown};
ghost use Rattle.kernel_abstract.specs.Reached.{IsReached};
ghost use Rattle.query_orders.specs.declared.groups.exploring.GroupExplored.{GroupExplored as GroupExploredOf};
ghost use Rattle.query_orders.specs.World.{start};
ghost use Rattle.query_orders.specs.Groups.{first_of_groups, alone as alone_of, is_client_in};
ghost use Rattle.query_orders.specs.GroupsExplored.{IsExploredByGroups};
ghost use Rattle.query_orders.specs.Nodes.{own_calls};
ghost use Rattle.query_orders.specs.Explorations.{IsExplored};

use crate::Answer;
use crate::exploring::FoundAnswers;
use crate::exploring::exploration::{Explored, begin, explore};
use crate::groups::alone::alone;
use crate::groups::grouping::{group_of, groups_of};
use cap_core::Profile;
use ipc_core::SaveWaiters;
use kernel_core::{Call, Kernel};
use slot_core::{DerivationStore, SaveStore};
use std::alloc::{AllocError, Global};

/// A group, by its first client, and what the orders of its clients' calls give, by themselves.
#[derive(Drop)]
pub struct GroupExplored {
    pub first: usize,
    pub explored: Explored,
}

/// For each client the first client of its group, and what each group gives.
#[derive(Drop)]
pub struct GroupsExplored {
    pub groups: Vec<usize>,
    pub explored: Vec<GroupExplored>,
}

/// Explores the orders of each group's clients by themselves.
fn explore_each<P: Profile, S: SaveStore<P> + DerivationStore<P>, W: SaveWaiters<P>>(
    alloc: Global,
    calls: &[Vec<Call>],
    kernel: &Kernel<P, S, W>,
    first: &[usize],
    limit: u64,
    count: usize,
    made: &[usize],
    groups: &[usize],
) -> Result<Vec<GroupExplored>, AllocError>
    ensures firsts { IfOk result (λ all. map (λ (g : GroupExploredOf). g.first) all.items ≡ first_of_groups groups.now) }
    ensures explored { IfOk result (λ all. (A : State) → IsReached P.profile A → kernel.now ≡ shown A
        → Each (λ (g : GroupExploredOf). IsExplored P.profile (alone_of (own_calls calls.now) made.now (is_client_in groups.now g.first)) A first.now ⟦<Answer as PartialEq>⟧.eq limit count g.explored) all.items) }
{
    let mut all = Vec::new(alloc);
    for client in 0..groups.len() {
        if group_of(groups, client) == client {
            let lone = alone(alloc, calls, made, groups, client)?;
            let explored = explore(alloc, lone.as_slice(), kernel, first, limit, count)?;
            all.push(GroupExplored {
                first: client,
                explored,
            })?;
        }
    }
    Ok(all)
}

/// Explores the orders of each group's clients by themselves, from a kernel on. All orders begin with the next calls of the
/// clients of `first`; behind them the clients of the group make the calls that they have left, and the others none. Two
/// clients are of one group where calls that they have left then, or that wait, touch one thread or endpoint, and where both
/// are of one with a third; all are of one where some call that is left may change a capability. For each group by itself,
/// the limit is of the states, and `count` of the calls behind the first ones.
pub fn explore_groups<P: Profile, S: SaveStore<P> + DerivationStore<P>, W: SaveWaiters<P>>(
    alloc: Global,
    calls: &[Vec<Call>],
    kernel: &Kernel<P, S, W>,
    first: &[usize],
    limit: u64,
    count: usize,
) -> Result<GroupsExplored, AllocError>
    ensures { IfOk result (λ e. (A : State) → IsReached P.profile A → kernel.now ≡ shown A
        → IsExploredByGroups P.profile (own_calls calls.now) A first.now ⟦<Answer as PartialEq>⟧.eq limit count e) }
{
    let mut told = FoundAnswers::new(alloc);
    let mut at = kernel.copy(alloc)?;
    let node = begin(alloc, calls, &mut at, first, &mut told)?;
    let made = node.made.as_slice();
    let groups = groups_of(alloc, calls, &at, made, node.waits.as_slice())?;
    let list = groups.as_slice();
    let explored = explore_each(alloc, calls, kernel, first, limit, count, made, list)?;
    Ok(GroupsExplored { groups, explored })
}
