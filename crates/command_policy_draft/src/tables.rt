//! The tables of a draft, and the entries that stand together in one. No clause says what is written: the draft is read back (`judged`).
use cap_core::Rights;
use setup_report::RightsText;
use std::alloc::{AllocError, Global};
use std::fmt;
use std::fmt::Write;

/// What a table says.
#[derive(Clone, Copy, PartialEq, Eq)]
pub enum Kind {
    Way,
    Use,
    Take,
}

/// The values of a key, as they are written.
#[derive(Drop, PartialEq, Eq)]
pub struct Values(pub Vec<String>);

impl Values {
    /// Words, in quotes.
    pub fn quoted(alloc: Global, words: &[&str]) -> Result<Values, AllocError> {
        let mut values = Vec::new(alloc);
        for word in words {
            values.push(format!(in alloc; "\"{word}\"")?)?;
        }
        Ok(Values(values))
    }

    fn has_any(&self, others: &Values) -> bool {
        for other in others.0.as_slice() {
            if self.0.contains(other) {
                return true;
            }
        }
        false
    }

    /// The value that all of them are.
    fn only(&self) -> Option<&str> {
        let first = self.0.as_slice().first()?;
        for value in self.0.as_slice() {
            if value != first {
                return None;
            }
        }
        Some(first.as_str())
    }
}

impl fmt::Display for Values {
    fn fmt<W: fmt::Write>(&self, f: &mut fmt::Formatter<W>) -> fmt::Result {
        if let Some(only) = self.only() {
            return f.write_str(only);
        }
        let mut before = "[";
        for value in self.0.as_slice() {
            write!(f, "{before}{value}")?;
            before = ", ";
        }
        f.write_str("]")
    }
}

/// The entries of one table: `from` has the senders of a way, the groups of a use, or those who take; a use has none in `to`, and a
/// take has neither endpoints nor badges.
#[derive(Drop, PartialEq, Eq)]
pub struct Table {
    pub kind: Kind,
    pub from: Values,
    pub to: Values,
    pub by: Values,
    pub badge: Values,
    pub rights: Rights,
    pub both: bool,
}

/// Which values of two tables are put into one: those of a key, or those of a way and of the same the other way round.
#[derive(Clone, Copy)]
enum Joined {
    Both,
    By,
    From,
    To,
}

/// Which tables are joined, in this order.
const STEPS: [(Kind, Joined); 8] = [
    (Kind::Way, Joined::Both),
    (Kind::Way, Joined::By),
    (Kind::Way, Joined::From),
    (Kind::Way, Joined::To),
    (Kind::Use, Joined::From),
    (Kind::Use, Joined::By),
    (Kind::Take, Joined::To),
    (Kind::Take, Joined::From),
];

impl Table {
    /// A table with these words, and nothing else.
    pub fn new(alloc: Global, kind: Kind, from: &str, to: &[&str]) -> Result<Table, AllocError> {
        Ok(Table {
            kind,
            from: Values::quoted(alloc, &[from])?,
            to: Values::quoted(alloc, to)?,
            by: Values::quoted(alloc, &[])?,
            badge: Values::quoted(alloc, &[])?,
            rights: Rights(0),
            both: false,
        })
    }

    /// Whether another table differs in what is joined alone. Each sender stands there once, and has a badge of its own if the badges
    /// differ; those of both ways have one badge.
    fn takes_in(&self, other: &Table, joined: Joined) -> bool {
        if self.rights.0 != other.rights.0 || self.both != other.both {
            return false;
        }
        match joined {
            Joined::Both => {
                let is_one_way = !self.both && self.from == other.to && self.to == other.from;
                is_one_way && self.by == other.by && self.badge == other.badge
            }
            Joined::By => {
                self.from == other.from && self.to == other.to && self.badge == other.badge
            }
            Joined::From => {
                let has_badge = !self.both || self.badge == other.badge;
                has_badge
                    && self.to == other.to
                    && self.by == other.by
                    && !self.from.has_any(&other.from)
            }
            Joined::To => {
                self.from == other.from && self.by == other.by && self.badge == other.badge
            }
        }
    }

    fn join(&mut self, mut other: Table, joined: Joined) -> Result<(), AllocError> {
        match joined {
            Joined::Both => {
                self.both = true;
                Ok(())
            }
            Joined::By => self.by.0.append(&mut other.by.0),
            Joined::From => {
                if !self.both {
                    self.badge.0.append(&mut other.badge.0)?;
                }
                self.from.0.append(&mut other.from.0)
            }
            Joined::To => self.to.0.append(&mut other.to.0),
        }
    }
}

/// Joins a table to the first one that takes it in, or adds it.
fn add_joined(tables: &mut Vec<Table>, table: Table, joined: Joined) -> Result<(), AllocError> {
    let mut place = tables.len();
    for (i, earlier) in tables.as_slice().iter().enumerate() {
        if earlier.takes_in(&table, joined) {
            place = i;
            break;
        }
    }
    match tables.get_mut(place) {
        Some(earlier) => earlier.join(table, joined),
        None => {
            tables.push(table)?;
            Ok(())
        }
    }
}

/// Fewer tables with the same entries.
pub fn folded(alloc: Global, mut tables: Vec<Table>) -> Result<Vec<Table>, AllocError> {
    for (kind, joined) in STEPS {
        let mut fewer = Vec::new(alloc);
        for table in tables {
            if table.kind == kind {
                add_joined(&mut fewer, table, joined)?;
            } else {
                fewer.push(table)?;
            }
        }
        tables = fewer;
    }
    Ok(tables)
}

impl fmt::Display for Table {
    fn fmt<W: fmt::Write>(&self, f: &mut fmt::Formatter<W>) -> fmt::Result {
        let Table {
            from,
            to,
            by,
            badge,
            ..
        } = self;
        let rights = RightsText(self.rights);
        match self.kind {
            Kind::Take => writeln!(f, "  {{ from = {from}, to = {to} }},"),
            Kind::Use => writeln!(
                f,
                "  {{ group = {from}, of = {by}, badge = {badge}, rights = \"{rights}\" }},"
            ),
            Kind::Way => {
                let both = if self.both { ", both = true" } else { "" };
                writeln!(
                    f,
                    "  {{ from = {from}, to = {to}, by = {by}, badge = {badge}, rights = \"{rights}\"{both} }},"
                )
            }
        }
    }
}

/// The keys of a draft behind its groups.
pub fn tables_text(alloc: Global, tables: &[Table]) -> Result<String, AllocError> {
    let mut out = String::new(alloc);
    for (key, kind) in [("way", Kind::Way), ("use", Kind::Use), ("take", Kind::Take)] {
        writeln!(out, "{key} = [")?;
        for table in tables {
            if table.kind == kind {
                write!(out, "{table}")?;
            }
        }
        out.push_str("]\n")?;
    }
    Ok(out)
}
