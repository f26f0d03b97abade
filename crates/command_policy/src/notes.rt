//! What standard error tells of a set-up that is held to a policy: each breach and each allowance of which nothing is there, with the
//! place of the entry, as compilers do.
ghost use Rattle.std.specs.Prelude.{◌≤◌, length};

use crate::judging::Judged;
use command_core::{CallNote, PolicyNote, Verdict};
use command_parts::{BadgeText, Take};
use command_policy_breaches::{
    End, HeldRegion, Hold, Join, Passage, Waiting, groups_at, is_entry, is_way_between,
};
use command_policy_places::{Place as Source, Role, Sited};
use command_policy_text::{
    Held, Origin, Told, allowed_badges, allowed_rights, call_breaches, capability_text, end_label,
    is_other_badge, kinds, object, part_label, places_of, told_text,
};
use query_parts::{PartUse, part_at};
use setup_format::Setup;
use setup_policy::{Allowance, PolicyTake, PolicyVersion, PolicyWay};
use setup_policy_file::{Place, PolicyFile, Refusal, Spot, line_and_column};
use setup_policy_meaning::table_spot;
use std::alloc::{AllocError, Global};
use std::collections::BTreeMap;
use std::fmt::Write;

/// The most lines of a kind.
const MOST: usize = 20;

/// What is told of: a policy's file with its text, and what is judged by it.
#[derive(Clone, Copy)]
struct Teller<'a> {
    alloc: Global,
    file: &'a PolicyFile,
    text: &'a str,
    judged: &'a Judged,
    held: Held<'a>,
}

/// What is told, by its line.
type ByLine = BTreeMap<String, Told>;

/// What is told of breaches, or of allowances: of the first of them, how many these are, and how many more there are, of which no place
/// is looked up.
#[derive(Drop)]
struct Lines {
    first: Vec<PolicyNote>,
    told: usize,
    more: usize,
}

impl Lines {
    fn new(alloc: Global) -> Lines {
        Lines {
            first: Vec::new(alloc),
            told: 0,
            more: 0,
        }
    }

    /// Whether one more is told; it is counted either way.
    fn has_room(&mut self) -> bool {
        let has_room = self.told < MOST;
        if has_room {
            self.told = self.told.saturating_add(1);
        } else {
            self.more = self.more.saturating_add(1);
        }
        has_room
    }

    /// Adds what is said of a call.
    fn add_call(&mut self, call: usize, text: String) -> Result<(), AllocError> {
        self.first.push(PolicyNote::Call(CallNote { call, text }))?;
        Ok(())
    }

    /// Adds the same, and a note without words behind it, which asks where in the layout the call stands.
    fn add_origin(&mut self, alloc: Global, call: usize, text: String) -> Result<(), AllocError> {
        self.add_call(call, text)?;
        self.add_call(call, String::new(alloc))
    }

    /// The first of them, and then how many more there are, where there are more.
    fn notes(self) -> Result<Vec<PolicyNote>, AllocError> {
        let Lines {
            mut first,
            more,
            ..
        } = self;
        if more > 0 {
            first.push(PolicyNote::More(more))?;
        }
        Ok(first)
    }
}

/// The call that filled a slot of a breach, if one did.
fn filled_by(origin: Origin<'_>, slot: u64) -> Option<usize> {
    for fill in origin.calls.fills {
        if fill.slot == slot {
            return fill.call;
        }
    }
    None
}

impl<'a> Teller<'a> {
    /// Where a group stands, or the thread that is trusted.
    fn group_spot(self, actor: Option<u64>) -> Spot<'static> {
        let groups = self.file.groups.as_slice();
        match actor {
            None => Spot::Threads,
            Some(actor) => match groups.get(actor as usize) {
                Some(group) => table_spot(group.place, ""),
                None => Spot::Key(Place::Top, "silent"),
            },
        }
    }

    fn part_spot(self, part: u64) -> Result<Spot<'static>, AllocError> {
        let groups = groups_at(self.alloc, self.held.layout.homes.as_slice(), part)?;
        Ok(self.group_spot(groups.as_slice().first().copied()))
    }

    fn end_spot(self, end: End) -> Result<Spot<'static>, AllocError> {
        if !end.is_part {
            return Ok(self.group_spot(Some(end.number)));
        }
        let groups = groups_at(self.alloc, self.held.homes, end.number)?;
        Ok(self.group_spot(groups.as_slice().first().copied()))
    }

    /// Where a way stands, by its number from 0: the table of which it is one.
    fn way_at(self, i: usize) -> Spot<'static> {
        match self.file.ways.as_slice().get(i) {
            Some(way) => Spot::Key(way.place, ""),
            None => Spot::Threads,
        }
    }

    fn use_at(self, i: usize) -> Spot<'static> {
        match self.file.uses.as_slice().get(i) {
            Some(used) => Spot::Key(used.place, ""),
            None => Spot::Threads,
        }
    }

    /// Where an entry stands, by its place among those of ways and uses.
    fn entry_spot(self, place: usize) -> Spot<'static> {
        let ways = self.held.policy.ways.len();
        if place < ways {
            return self.way_at(place);
        }
        match place.checked_sub(ways.saturating_mul(2)) {
            Some(place) => self.use_at(place),
            None => self.way_at(place.saturating_sub(ways)),
        }
    }

    /// The first entry of a use's endpoint, or, where its badge is amiss, the first with another that stands in its place.
    fn entry_at(self, used: &PartUse, by_badge: bool) -> Spot<'static> {
        let entries = self.held.policy.allowances.as_slice();
        for (place, entry) in entries.iter().enumerate() {
            let is_it = if by_badge {
                is_other_badge(self.held, used, entry)
            } else {
                is_entry(self.held.layout, used.part, used.endpoint, entry)
            };
            if is_it {
                return self.entry_spot(place);
            }
        }
        Spot::Threads
    }

    fn way_spot(self, passage: &Passage) -> Result<Spot<'static>, AllocError> {
        let ways = self.held.policy.ways.as_slice();
        for (place, way) in ways.iter().enumerate() {
            if is_way_between(self.held.homes, passage, way) {
                return Ok(self.entry_spot(place));
            }
        }
        self.end_spot(passage.from)
    }

    fn wait_spot(self, wait: &Waiting) -> Result<Spot<'static>, AllocError> {
        match part_at(self.held.layout.memory.as_slice(), wait.thread) {
            Some(part) => self.part_spot(part),
            None => Ok(Spot::Threads),
        }
    }

    /// Where what a line tells stands in the policy.
    fn spot(self, told: &Told) -> Result<Spot<'static>, AllocError> {
        match told {
            Told::Joined(part) => self.part_spot(*part),
            Told::Grant(join) => self.part_spot(join.from),
            Told::Thread(hold) => self.part_spot(hold.part),
            Told::Region(region) => self.part_spot(region.part),
            Told::Use(used) => self.part_spot(used.part),
            Told::Badge(used) => Ok(self.entry_at(used, true)),
            Told::Right(used) => Ok(self.entry_at(used, false)),
            Told::Way(passage) => self.way_spot(passage),
            Told::Waits(wait) => self.wait_spot(wait),
            Told::Taken(take) => self.part_spot(take.by),
            Told::UnusedWay(way) | Told::IdleInWay(way) => Ok(self.idle_way_spot(way)),
            Told::UnusedUse(entry) | Told::IdleInUse(entry) => Ok(self.idle_use_spot(entry)),
            Told::UnusedRegion(own) => Ok(self.group_spot(Some(own.group))),
            Told::UnusedGroup(group) | Told::Group(group) => Ok(self.group_spot(Some(*group))),
            Told::UnusedTake(take) => Ok(self.idle_take_spot(take)),
            Told::Silent(_) | Told::Messages(_) => Ok(Spot::Threads),
        }
    }

    fn idle_way_spot(self, way: &PolicyWay) -> Spot<'static> {
        for (i, other) in self.held.policy.ways.as_slice().iter().enumerate() {
            if *other == *way {
                return self.way_at(i);
            }
        }
        Spot::Threads
    }

    fn idle_use_spot(self, entry: &Allowance) -> Spot<'static> {
        for (i, other) in self.held.policy.uses.as_slice().iter().enumerate() {
            if *other == *entry {
                return self.use_at(i);
            }
        }
        Spot::Threads
    }

    fn idle_take_spot(self, take: &PolicyTake) -> Spot<'static> {
        let takes = self.held.policy.takes.as_slice();
        for (other, entry) in takes.iter().zip(self.file.takes.as_slice()) {
            if *other == *take {
                return Spot::Key(entry.place, "");
            }
        }
        Spot::Threads
    }

    /// The names of a part's groups, in order, with a word between two of them.
    fn joined_words(self, part: u64) -> Result<String, AllocError> {
        let line = told_text(self.alloc, self.held, Told::Joined(part))?;
        let names = line.as_str().strip_prefix("breach joined ").unwrap_or("");
        let names: Vec<&str> = names.split(' ').collect(self.alloc)?;
        let names = names.as_slice().join(self.alloc, " and ")?;
        format!(in self.alloc; "{names} are one part: what one of them can get, the other can")
    }

    fn part(self, part: u64) -> Result<String, AllocError> {
        part_label(self.alloc, self.held.policy, self.held.layout, part)
    }

    fn badge_words(self, used: PartUse) -> Result<String, AllocError> {
        let part = self.part(used.part)?;
        let endpoint = object(self.held.labels.endpoints.as_slice(), used.endpoint);
        let badge = BadgeText(used.badge.0);
        let allowed = allowed_badges(self.alloc, self.held, used)?;
        let mut words = String::new(self.alloc);
        for (i, badge) in allowed.as_slice().iter().enumerate() {
            let comma = if i == 0 { "" } else { ", " };
            write!(words, "{comma}{badge}")?;
        }
        format!(in self.alloc;
            "{part} may use {endpoint} with badge {badge}; the policy lets it have {words}"
        )
    }

    fn way_words(self, passage: &Passage) -> Result<String, AllocError> {
        let from = end_label(self.alloc, self.held, passage.from)?;
        let to = end_label(self.alloc, self.held, passage.to)?;
        let endpoint = object(self.held.labels.endpoints.as_slice(), passage.endpoint);
        let badge = BadgeText(passage.badge);
        format!(in self.alloc;
            "{from} may send to {to} by {endpoint} with badge {badge}; no way lets it"
        )
    }

    fn wait_words(self, wait: &Waiting) -> Result<String, AllocError> {
        let thread = object(self.held.labels.threads.as_slice(), wait.thread);
        let endpoint = object(self.held.labels.endpoints.as_slice(), wait.endpoint);
        let badge = wait.badge;
        if wait.sends {
            format!(in self.alloc;
                "a send of {thread} to {endpoint} with badge {badge} waits, and may be delivered; no way lets it"
            )
        } else {
            format!(in self.alloc; "{thread} waits to receive on {endpoint}; no way lets it")
        }
    }

    fn use_words(self, used: PartUse) -> Result<String, AllocError> {
        let part = self.part(used.part)?;
        let capability = capability_text(self.alloc, self.held, used)?;
        format!(in self.alloc; "{part} holds {capability}; no way and no use of the policy lets it")
    }

    fn right_words(self, used: PartUse) -> Result<String, AllocError> {
        let part = self.part(used.part)?;
        let capability = capability_text(self.alloc, self.held, used)?;
        let rights = allowed_rights(self.held, used);
        format!(in self.alloc; "{part} holds {capability}; the policy lets it have {rights}")
    }

    fn grant_words(self, join: &Join) -> Result<String, AllocError> {
        let (from, to) = (self.part(join.from)?, self.part(join.to)?);
        let endpoint = object(self.held.labels.endpoints.as_slice(), join.endpoint);
        format!(in self.alloc;
            "{from} can hand capabilities to {to} by {endpoint}, where it has Grant; so the two are one part in seL4"
        )
    }

    fn hold_words(self, hold: &Hold) -> Result<String, AllocError> {
        let part = self.part(hold.part)?;
        let thread = object(self.held.labels.threads.as_slice(), hold.thread);
        format!(in self.alloc; "{part} has hold of the trusted thread {thread}")
    }

    fn region_words(self, region: &HeldRegion) -> Result<String, AllocError> {
        let part = self.part(region.part)?;
        let base = object(self.held.labels.regions.as_slice(), region.base);
        let bits = region.bits;
        format!(in self.alloc;
            "{part} has the untyped region {base} bits {bits}, and may make objects there; add it to its regions, or don't hand it out"
        )
    }

    fn take_words(self, take: &Take) -> Result<String, AllocError> {
        let by = self.part(take.by)?;
        let of = self.part(take.of)?;
        format!(in self.alloc;
            "{by} can empty slots of {of} by a revoke; no take of the policy lets it"
        )
    }

    /// What standard error says of a line.
    fn words(self, line: &str, told: &Told) -> Result<String, AllocError> {
        match told {
            Told::Joined(part) => self.joined_words(*part),
            Told::Grant(join) => self.grant_words(join),
            Told::Thread(hold) => self.hold_words(hold),
            Told::Region(region) => self.region_words(region),
            Told::Use(used) => self.use_words(*used),
            Told::Badge(used) => self.badge_words(*used),
            Told::Right(used) => self.right_words(*used),
            Told::Way(passage) => self.way_words(passage),
            Told::Waits(wait) => self.wait_words(wait),
            Told::Taken(take) => self.take_words(take),
            _ => {
                let line = line.strip_prefix("unused ").unwrap_or(line);
                format!(in self.alloc; "unused: {line}")
            }
        }
    }

    /// What is told of a kind, by its lines.
    fn by_line(self, told: &[Told]) -> Result<ByLine, AllocError> {
        let mut lines = BTreeMap::new(self.alloc);
        for one in told {
            let line = told_text(self.alloc, self.held, *one)?;
            if !lines.contains_key(&line) {
                lines.insert(line, *one)?;
            }
        }
        Ok(lines)
    }

    /// Adds which calls a place comes from.
    fn add_place(
        self,
        lines: &mut Lines,
        origin: Origin<'_>,
        sited: Sited,
    ) -> Result<(), AllocError> {
        let (alloc, names) = (self.alloc, origin.names);
        let role = match sited.role {
            Role::Alone => "",
            Role::From => "from: ",
            Role::To => "to: ",
        };
        match sited.place {
            Source::Thread(thread) => {
                if let Some(call) = origin.calls.waits_since(thread) {
                    let thread = names.about(thread);
                    lines.add_origin(
                        alloc,
                        call,
                        format!(in alloc; "note: {role}by call {call} {thread} waits")?,
                    )?;
                }
            }
            Source::Slot(slot) | Source::Under { slot, .. } => {
                if let Some(call) = filled_by(origin, slot) {
                    let slot = names.slot(slot);
                    lines.add_origin(
                        alloc,
                        call,
                        format!(in alloc; "note: {role}call {call} fills {slot}")?,
                    )?;
                }
            }
        }
        if let Source::Under { above, .. } = sited.place
            && let Some(call) = filled_by(origin, above)
        {
            let above = names.slot(above);
            lines.add_origin(
                alloc,
                call,
                format!(in alloc; "note: below {above}, which call {call} fills")?,
            )?;
        }
        Ok(())
    }

    /// Adds which calls what is told comes from.
    fn add_places(
        self,
        lines: &mut Lines,
        origin: Origin<'_>,
        told: Told,
    ) -> Result<(), AllocError> {
        for sited in &places_of(self.alloc, self.held, origin.sites, told)? {
            self.add_place(lines, origin, *sited)?;
        }
        Ok(())
    }

    /// Adds a line for each of a kind, and which calls it comes from, if that is told.
    fn add_kind(
        self,
        lines: &mut Lines,
        told: &[Told],
        word: &str,
        origin: Option<Origin<'_>>,
    ) -> Result<(), AllocError> {
        let by_line = self.by_line(told)?;
        for (line, one) in &by_line {
            if lines.has_room() {
                let (row, column) = line_and_column(self.alloc, self.text, self.spot(one)?)?;
                let words = self.words(line.as_str(), one)?;
                let text = format!(in self.alloc; "{word}: {words}")?;
                let place = PolicyNote::Place {
                    line: row,
                    column,
                    text,
                };
                lines.first.push(place)?;
                if let Some(origin) = origin {
                    self.add_places(lines, origin, *one)?;
                }
            }
        }
        Ok(())
    }

    /// The number of the call of which a line tells: `breach call N ..`.
    fn call_of(self, line: &str) -> usize {
        let behind = line.strip_prefix("breach call ").unwrap_or("");
        let number = behind.split(' ').next().unwrap_or("");
        number.parse::<usize>().unwrap_or(1)
    }

    fn add_calls(self, lines: &mut Lines, setup: &Setup) -> Result<(), AllocError>
        requires { length self.judged.now.replies.items ≤ length setup.now.calls }
    {
        if !self.held.policy.calls {
            return Ok(());
        }
        for line in call_breaches(self.alloc, setup, self.judged.replies.as_slice())? {
            if lines.has_room() {
                let words = line.as_str().strip_prefix("breach ").unwrap_or("");
                let call = self.call_of(line.as_str());
                let text = format!(in self.alloc; "error: {words}")?;
                match self.held.policy.version {
                    PolicyVersion::One => lines.add_call(call, text)?,
                    PolicyVersion::Two => lines.add_origin(self.alloc, call, text)?,
                }
            }
        }
        Ok(())
    }

    /// A line for each breach.
    fn errors(
        self,
        setup: &Setup,
        origin: Option<Origin<'_>>,
    ) -> Result<Vec<PolicyNote>, AllocError>
        requires { length self.judged.now.replies.items ≤ length setup.now.calls }
    {
        let (alloc, held) = (self.alloc, self.held);
        let mut lines = Lines::new(alloc);
        self.add_calls(&mut lines, setup)?;
        let (joins, passages) = (
            self.judged.joins.as_slice(),
            self.judged.passages.as_slice(),
        );
        for kind in &kinds::breaches(alloc, held, joins, passages)? {
            self.add_kind(&mut lines, kind.as_slice(), "error", origin)?;
        }
        lines.notes()
    }

    /// A line for each allowance of which nothing is there.
    fn warnings(self) -> Result<Vec<PolicyNote>, AllocError> {
        let (alloc, held) = (self.alloc, self.held);
        let mut lines = Lines::new(alloc);
        let told = [
            kinds::idle_ways(alloc, held)?,
            kinds::idle_uses(alloc, held)?,
            kinds::idle_rights(alloc, held)?,
            kinds::idle_regions(alloc, held)?,
            kinds::idle_groups(alloc, held)?,
            kinds::idle_takes(alloc, held)?,
        ];
        for kind in &told {
            self.add_kind(&mut lines, kind.as_slice(), "warning", None)?;
        }
        lines.notes()
    }
}

/// What standard error tells of a set-up that was held to a policy: of each breach, with the calls that it comes from, if there is an
/// origin, and of each allowance of which nothing is there.
pub fn notes_on(
    alloc: Global,
    file: &PolicyFile,
    text: &str,
    judged: &Judged,
    setup: &Setup,
    origin: Option<Origin<'_>>,
    verdict: Verdict,
) -> Result<Vec<PolicyNote>, AllocError>
    requires { length judged.now.replies.items ≤ length setup.now.calls }
{
    let teller = Teller {
        alloc,
        file,
        text,
        judged,
        held: judged.held(),
    };
    // Where all expectations of a policy are met, nothing breaks it.
    let mut notes = match verdict {
        Verdict::AllMet => Vec::new(alloc),
        _ => teller.errors(setup, origin)?,
    };
    for note in teller.warnings()? {
        notes.push(note)?;
    }
    Ok(notes)
}

/// What standard error tells of a policy that is refused: its faults, and how many more there are.
///
/// # Errors
///
/// Memory was refused, now or before.
pub fn note_on_refusal(alloc: Global, refusal: &Refusal) -> Result<Vec<PolicyNote>, AllocError> {
    let Refusal::At { notes, more, .. } = refusal else {
        return Err(AllocError);
    };
    let mut lines = Lines::new(alloc);
    lines.more = *more;
    for note in notes.as_slice() {
        let text = format!(in alloc; "error: {}", note.words)?;
        lines.first.push(PolicyNote::Place {
            line: note.line,
            column: note.column,
            text,
        })?;
    }
    lines.notes()
}
