//! The ways, the uses and the takes of a draft: what breaks the policy that was written so far. No clause says what is written: the
//! draft is read back (`judged`).
use crate::groups::group_at;
use crate::tables::{Kind, Table};
use cap_core::{Badge, Rights};
use command_policy::Judged;
use command_policy_breaches::{
    badges_amiss, is_entry, passages_amiss, rights_amiss, takes_amiss, unlisted, waits_amiss,
};
use command_policy_text::{end_label, label, object, part_label};
use query_parts::{PartUse, part_at};
use setup_policy::Allowance;
use std::alloc::{AllocError, Global};
use std::fmt;
use std::fmt::Write;

/// The greatest integer of TOML.
const MOST_INTEGER: u64 = 9_223_372_036_854_775_807;

/// A badge as the value of a key.
#[derive(Drop)]
struct BadgeValue(u64);

impl fmt::Display for BadgeValue {
    fn fmt<W: fmt::Write>(&self, f: &mut fmt::Formatter<W>) -> fmt::Result {
        let badge = self.0;
        if badge == 0 {
            write!(f, "\"any\"")
        } else if badge > MOST_INTEGER {
            write!(f, "\"0x{badge:x}\"")
        } else {
            write!(f, "{badge}")
        }
    }
}

/// A layout that is held to what was written so far, and whether entries with any badge are to be added, or those with one.
#[derive(Drop)]
pub struct SoFar<'a> {
    pub alloc: Global,
    pub judged: &'a Judged,
    pub with_any: bool,
}

impl SoFar<'_> {
    /// All rights that the group of an entry has to its endpoint by its badge.
    fn all_rights(&self, entry: &Allowance) -> Rights {
        let (layout, mut rights) = (&self.judged.layout, entry.rights.0);
        for used in layout.uses.as_slice() {
            if used.badge.0 == entry.badge && is_entry(layout, used.part, used.endpoint, entry) {
                rights |= used.rights.0;
            }
        }
        Rights(rights)
    }

    /// Adds a table of an entry with such a badge, unless it is there.
    fn add(
        &self,
        tables: &mut Vec<Table>,
        mut table: Table,
        entry: &Allowance,
    ) -> Result<(), AllocError> {
        if (entry.badge == 0) != self.with_any {
            return Ok(());
        }
        let alloc = self.alloc;
        let endpoint = object(self.judged.labels.endpoints.as_slice(), entry.endpoint);
        let badge = BadgeValue(entry.badge);
        table.by.0.push(format!(in alloc; "\"{endpoint}\"")?)?;
        table.badge.0.push(format!(in alloc; "{badge}")?)?;
        table.rights = self.all_rights(entry);
        if !tables.contains(&table) {
            tables.push(table)?;
        }
        Ok(())
    }

    /// Adds ways for what passes and no way lets pass.
    pub fn add_ways(&self, tables: &mut Vec<Table>) -> Result<(), AllocError> {
        let (alloc, judged) = (self.alloc, self.judged);
        let (homes, passages) = (judged.homes.as_slice(), judged.passages.as_slice());
        let (policy, layout) = (&judged.policy, &judged.layout);
        let amiss = passages_amiss(alloc, policy, layout, homes, &[], &[], passages)?;
        for passage in amiss.as_slice() {
            let sender = passage.from;
            let from = end_label(alloc, judged.held(), sender)?;
            let to = end_label(alloc, judged.held(), passage.to)?;
            let way = Table::new(alloc, Kind::Way, from.as_str(), &[to.as_str()])?;
            let group = group_at(alloc, homes, sender.number)?;
            let entry = Allowance {
                actor: if sender.is_part { group } else { sender.number },
                endpoint: passage.endpoint,
                badge: passage.badge,
                rights: Rights::WRITE,
            };
            self.add(tables, way, &entry)?;
        }
        Ok(())
    }

    /// Adds takes for what parts take and no entry lets them take.
    pub fn add_takes(&self, tables: &mut Vec<Table>) -> Result<(), AllocError> {
        let alloc = self.alloc;
        let Judged { policy, layout, .. } = self.judged;
        let takes = takes_amiss(alloc, policy, layout)?;
        for take in takes.as_slice() {
            let from = part_label(alloc, policy, layout, take.by)?;
            let to = part_label(alloc, policy, layout, take.of)?;
            let take = Table::new(alloc, Kind::Take, from.as_str(), &[to.as_str()])?;
            if !tables.contains(&take) {
                tables.push(take)?;
            }
        }
        Ok(())
    }

    /// What parts have and no entry lets them have; where there is nothing, what their threads wait for.
    fn needs(&self) -> Result<Vec<PartUse>, AllocError> {
        let Judged { policy, layout, .. } = self.judged;
        let mut needs = unlisted(self.alloc, policy, layout)?;
        let badges = badges_amiss(self.alloc, policy, layout)?;
        let rights = rights_amiss(self.alloc, policy, layout)?;
        needs.extend_from_slice(badges.as_slice())?;
        needs.extend_from_slice(rights.as_slice())?;
        if !needs.is_empty() {
            return Ok(needs);
        }
        let waits = waits_amiss(self.alloc, policy, layout)?;
        for wait in waits.as_slice() {
            if let Some(part) = part_at(layout.memory.as_slice(), wait.thread) {
                needs.push(PartUse {
                    part,
                    endpoint: wait.endpoint,
                    badge: Badge(wait.badge),
                    rights: if wait.sends {
                        Rights::WRITE
                    } else {
                        Rights::READ
                    },
                })?;
            }
        }
        Ok(needs)
    }

    /// Adds uses for what parts need and no entry lets them have.
    pub fn add_uses(&self, tables: &mut Vec<Table>) -> Result<(), AllocError> {
        let Judged { policy, layout, .. } = self.judged;
        let needs = self.needs()?;
        for used in needs.as_slice() {
            let group = group_at(self.alloc, layout.homes.as_slice(), used.part)?;
            let name = label(self.alloc, policy, &[group])?;
            let table = Table::new(self.alloc, Kind::Use, name.as_str(), &[])?;
            let entry = Allowance {
                actor: group,
                endpoint: used.endpoint,
                badge: used.badge.0,
                rights: used.rights,
            };
            self.add(tables, table, &entry)?;
        }
        Ok(())
    }
}
