//! The words of a policy are given their meaning.
ghost use Rattle.std.specs.Prelude.{false, ◌≡◌, ◌++◌, ◌||◌, true, map, length, Some, IfOk, IsErr, string_bytes};
ghost use Rattle.std.specs.List.{list_all, range_with_len};
ghost use Rattle.slot_core.specs.Calls.{derivation_view};
ghost use Rattle.slot_core.specs.declared.derivations.Derivation.{Derivation as TheDerivation};
ghost use Rattle.setup_values.specs.Names.{names_view};
ghost use Rattle.setup_report.specs.State.{slot_rows};
ghost use Rattle.setup_policy.specs.Entries as entries;
ghost use Rattle.setup_policy_file.specs.Values.{all_of};
ghost use Rattle.setup_policy_meaning.specs.Meant as meant;
ghost use Rattle.setup_policy_meaning.specs.Policies as spec;

use crate::objects::{Kind, Meaning, Object, Unmeant, object_of};
use cap_core::{Cap, Profile, Rights};
use ipc_core::Waiters;
use setup_policy::{Allowance, Member, OwnRegion, Policy, PolicyTake, PolicyWay, sender_entry};
use setup_policy_file::{
    Fault, GroupEntry, Place, PolicyFile, Refusal, Spot, TakeEntry, UseEntry, WayEntry, Word,
    did_you_mean,
};
use slot_core::{CapStore, Derivation};
use std::alloc::{AllocError, Global};

/// A policy file, its text, and the state that it is held to.
#[derive(Drop)]
pub struct Resolver<'a, P: Profile, S: CapStore<P> + Drop, W: Waiters<P> + Drop> {
    pub file: &'a PolicyFile,
    pub text: &'a str,
    pub meaning: Meaning<'a, P, S, W>,
}

/// Where in the policy a key of a table stands, or its beginning where the key is empty; `alone` for a group that has no table.
pub fn table_spot(place: Place, key: &'static str) -> Spot<'static> {
    match place {
        Place::Alone(_) => Spot::Key(Place::Top, "alone"),
        other => Spot::Key(other, key),
    }
}

/// What the groups and the trusted threads are called, and who is trusted.
#[derive(Clone, Copy)]
struct Actors<'a> {
    names: &'a [String],
    silent: &'a [Member],
    messages: &'a [Member],
}

impl<'a> Actors<'a> {
    fn is_trusted(self, thread: u64) -> bool
        ensures { result ≡ (spec.is_member thread self.entry.silent.now || spec.is_member thread self.entry.messages.now) }
    {
        has_thread(self.silent, thread) || has_thread(self.messages, thread)
    }

    fn name(self, actor: u64) -> &'a str {
        match self.names.get(actor as usize) {
            Some(name) => name.as_str(),
            None => "",
        }
    }
}

/// What a word is called in a policy: the number, or the name.
fn word_name(alloc: Global, word: &Word) -> Result<String, AllocError>
    ensures { IfOk result (λ text. string_bytes text ≡ meant.word_name word.now) }
{
    match word {
        Word::Number(number) => format!(in alloc; "{number}"),
        Word::Name(name) => String::from_str(alloc, name.as_str()),
    }
}

/// The names of groups.
fn group_names(alloc: Global, groups: &[GroupEntry]) -> Result<Vec<String>, AllocError>
    ensures { IfOk result (λ v. map string_bytes v.items ≡ map spec.group_name groups.now) }
{
    let mut names = Vec::new(alloc);
    for group in groups {
        let name = String::from_str(alloc, group.name.as_str())?;
        names.push(name)?;
    }
    Ok(names)
}

/// The numbers of so many groups.
fn group_numbers(alloc: Global, count: u64) -> Result<Vec<u64>, AllocError>
    ensures { IfOk result (λ v. v.items ≡ range_with_len 0 count) }
{
    let mut numbers = Vec::new(alloc);
    for i in 0..count {
        numbers.push(i)?;
    }
    Ok(numbers)
}

fn place_named(names: &[String], name: &str) -> Option<usize>
    ensures { result ≡ spec.actor_named names.now name.now }
{
    for (i, other) in names.iter().enumerate() {
        if other.as_str() == name {
            return Some(i);
        }
    }
    None
}

fn texts<'a>(alloc: Global, names: &'a [String]) -> Result<Vec<&'a str>, AllocError> {
    let mut texts = Vec::new(alloc);
    for name in names {
        texts.push(name.as_str())?;
    }
    Ok(texts)
}

/// The number of a group or of a trusted thread, by its name.
fn actor_named(names: &[String], name: &str) -> Option<u64>
    ensures { result ≡ spec.actor_named names.now name.now }
{
    let place = place_named(names, name)?;
    Some(place as u64)
}

impl<P: Profile, S: CapStore<P> + Drop, W: Waiters<P> + Drop> Resolver<'_, P, S, W> {
    fn alloc(&self) -> Global {
        self.meaning.objects.alloc
    }

    fn fault<T>(&self, fault: Fault, spot: Spot<'_>, words: String) -> Result<T, Refusal>
        ensures { IsErr result }
    {
        Err(Refusal::new(self.alloc(), self.text, fault, spot, words))
    }

    /// The fault that a word means nothing.
    fn refused<T>(&self, why: Unmeant, spot: Spot<'_>) -> Result<T, Refusal>
        ensures { IsErr result }
    {
        match why {
            Unmeant::Memory => Err(Refusal::Memory),
            Unmeant::Words(words) => self.fault(Fault::NoSuch, spot, words),
        }
    }

    /// The thread that a word means.
    fn thread(&self, word: &Word, spot: Spot<'_>) -> Result<u64, Refusal>
        ensures { IfOk result (λ thread. meant.thread_meant P.profile (names_view self.now.meaning.objects.names.now) self.now.meaning.setup.now.plan self.now.meaning.kernel.now word.now ≡ Some thread) }
    {
        match self.meaning.of_word(Kind::Thread, word) {
            Ok(thread) => Ok(thread.base),
            Err(why) => self.refused(why, spot),
        }
    }

    /// The endpoint that a word means.
    fn endpoint(&self, word: &Word, spot: Spot<'_>) -> Result<u64, Refusal>
        ensures { IfOk result (λ endpoint. meant.endpoint_meant P.profile (names_view self.now.meaning.objects.names.now) self.now.meaning.setup.now.plan self.now.meaning.kernel.now word.now ≡ Some endpoint) }
    {
        match self.meaning.of_word(Kind::Endpoint, word) {
            Ok(endpoint) => Ok(endpoint.base),
            Err(why) => self.refused(why, spot),
        }
    }

    /// A trusted thread, which is none of these.
    fn trusted_thread(
        &self,
        word: &Word,
        spot: Spot<'_>,
        silent: &[Member],
        trusted: &[Member],
    ) -> Result<u64, Refusal>
        ensures { IfOk result (λ thread. meant.thread_meant P.profile (names_view self.now.meaning.objects.names.now) self.now.meaning.setup.now.plan self.now.meaning.kernel.now word.now ≡ Some thread) }
    {
        let thread = self.thread(word, spot)?;
        if has_thread(silent, thread) || has_thread(trusted, thread) {
            let words = format!(in self.alloc(); "the thread {word} is trusted twice")?;
            return self.fault(Fault::Twice, spot, words);
        }
        Ok(thread)
    }

    /// Trusted threads, whose names are added.
    fn trusted(
        &self,
        names: &mut Vec<String>,
        key: &str,
        words: &[Word],
        silent: &[Member],
    ) -> Result<Vec<Member>, Refusal>
        ensures names { IfOk result (λ _. map string_bytes names.new.items ≡ map string_bytes names.old.items ++ map meant.word_name words.now) }
        ensures threads { IfOk result (λ v. spec.all_from (spec.member_meant P.profile (names_view self.now.meaning.objects.names.now) self.now.meaning.setup.now.plan self.now.meaning.kernel.now) (length names.old.items) words.now ≡ Some v.items) }
    {
        let mut trusted = Vec::new(self.alloc());
        let spot = Spot::Key(Place::Top, key);
        for word in words {
            let thread = self.trusted_thread(word, spot, silent, trusted.as_slice())?;
            let many = names.len();
            let actor = many as u64;
            let name = word_name(self.alloc(), word)?;
            names.push(name)?;
            trusted.push(Member { thread, actor })?;
        }
        Ok(trusted)
    }

    fn refuse_name_of_trusted(&self, group: &GroupEntry, names: &[String]) -> Result<(), Refusal> {
        let name = group.name.as_str();
        if place_named(names, name).is_none() {
            return Ok(());
        }
        let words = format!(in self.alloc();
            "{name} is a trusted thread; give the group another name, or don't trust it"
        )?;
        let spot = Spot::Key(group.place, "name");
        let at = table_spot(group.place, "");
        Err(Refusal::at(self.alloc(), self.text, Fault::Twice, spot, at, words))
    }

    /// A thread of a group, which has no group yet.
    fn member(
        &self,
        actors: Actors<'_>,
        members: &[Member],
        word: &Word,
        spot: Spot<'_>,
    ) -> Result<u64, Refusal>
        ensures meant { IfOk result (λ thread. meant.thread_meant P.profile (names_view self.now.meaning.objects.names.now) self.now.meaning.setup.now.plan self.now.meaning.kernel.now word.now ≡ Some thread) }
        ensures untrusted { IfOk result (λ thread. spec.is_trusted actors.entry.silent.now actors.entry.messages.now thread ≡ false) }
    {
        let thread = self.thread(word, spot)?;
        for member in members {
            if member.thread == thread {
                let group = actors.name(member.actor);
                let words = format!(in self.alloc();
                    "the thread {word} is in group {group} already; a thread has one group"
                )?;
                return self.fault(Fault::Twice, spot, words);
            }
        }
        if actors.is_trusted(thread) {
            let words = format!(in self.alloc();
                "the thread {word} is trusted, so it is in no group"
            )?;
            return self.fault(Fault::Twice, spot, words);
        }
        Ok(thread)
    }

    /// Adds the threads of a group.
    fn add_members(
        &self,
        members: &mut Vec<Member>,
        actors: Actors<'_>,
        words: &[Word],
        actor: u64,
        spot: Spot<'_>,
    ) -> Result<(), Refusal>
        ensures meant { IfOk result (λ _. spec.in_front members.old.items (all_of (spec.member_meant P.profile (names_view self.now.meaning.objects.names.now) self.now.meaning.setup.now.plan self.now.meaning.kernel.now actor) words.now) ≡ Some members.new.items) }
        ensures untrusted { IfOk result (λ _. spec.are_untrusted actors.entry.silent.now actors.entry.messages.now members.old.items ≡ true
            → spec.are_untrusted actors.entry.silent.now actors.entry.messages.now members.new.items ≡ true) }
    {
        for word in words {
            let thread = self.member(actors, members.as_slice(), word, spot)?;
            members.push(Member { thread, actor })?;
        }
        Ok(())
    }

    /// The region of a group that a word means.
    fn own_region(
        &self,
        rows: &[Derivation],
        word: &Word,
        group: u64,
        spot: Spot<'_>,
    ) -> Result<OwnRegion, Refusal>
        requires { map (derivation_view P.profile) rows.now ≡ slot_rows self.now.meaning.kernel.now }
        ensures { IfOk result (λ r. spec.own_meant P.profile (names_view self.now.meaning.objects.names.now) self.now.meaning.setup.now.plan self.now.meaning.kernel.now group word.now ≡ Some r) }
    {
        match self.meaning.region(rows, word, self.file.version) {
            Ok((base, bits)) => Ok(OwnRegion { group, base, bits }),
            Err(why) => self.refused(why, spot),
        }
    }

    /// Adds the regions of a group.
    fn add_regions(
        &self,
        regions: &mut Vec<OwnRegion>,
        rows: &[Derivation],
        words: &[Word],
        group: u64,
        spot: Spot<'_>,
    ) -> Result<(), Refusal>
        requires { map (derivation_view P.profile) rows.now ≡ slot_rows self.now.meaning.kernel.now }
        ensures { IfOk result (λ _. spec.in_front regions.old.items (all_of (spec.own_meant P.profile (names_view self.now.meaning.objects.names.now) self.now.meaning.setup.now.plan self.now.meaning.kernel.now group) words.now) ≡ Some regions.new.items) }
    {
        for word in words {
            let region = self.own_region(rows, word, group, spot)?;
            regions.push(region)?;
        }
        Ok(())
    }

    /// The threads of the groups, and their regions.
    fn groups(
        &self,
        actors: Actors<'_>,
        rows: &[Derivation],
        groups: &[GroupEntry],
    ) -> Result<(Vec<Member>, Vec<OwnRegion>), Refusal>
        requires { map (derivation_view P.profile) rows.now ≡ slot_rows self.now.meaning.kernel.now }
        ensures members { IfOk result (λ v. spec.members_meant P.profile (names_view self.now.meaning.objects.names.now) self.now.meaning.setup.now.plan self.now.meaning.kernel.now groups.now ≡ Some v.0.items) }
        ensures untrusted { IfOk result (λ v. spec.are_untrusted actors.entry.silent.now actors.entry.messages.now v.0.items ≡ true) }
        ensures regions { IfOk result (λ v. spec.regions_meant P.profile (names_view self.now.meaning.objects.names.now) self.now.meaning.setup.now.plan self.now.meaning.kernel.now groups.now ≡ Some v.1.items) }
    {
        let mut members = Vec::new(self.alloc());
        let mut regions = Vec::new(self.alloc());
        let trusted = actors.names.get(groups.len()..).unwrap_or(&[]);
        for (i, group) in groups.iter().enumerate() {
            let (threads, own) = (group.threads.as_slice(), group.regions.as_slice());
            self.refuse_name_of_trusted(group, trusted)?;
            let spot = table_spot(group.place, "threads");
            self.add_members(&mut members, actors, threads, i as u64, spot)?;
            let spot = Spot::Key(group.place, "regions");
            self.add_regions(&mut regions, rows, own, i as u64, spot)?;
        }
        Ok((members, regions))
    }

    /// That some live thread is in no group.
    fn groupless(
        &self,
        rows: &[Derivation],
        actors: Actors<'_>,
        members: &[Member],
    ) -> Result<(), Refusal>
        ensures { IsErr result }
    {
        let mut unknown: Option<Object> = None;
        for row in rows {
            if unknown.is_none() && !names_known(members, actors, row.cap) {
                unknown = object_of::<P>(row.cap);
            }
        }
        let name = match unknown {
            Some(object) => match self.meaning.objects.name(object) {
                Some(name) => format!(in self.alloc(); "@{name}")?,
                None => {
                    let base = object.base;
                    format!(in self.alloc(); "{base}")?
                }
            },
            None => String::new(self.alloc()),
        };
        let words = format!(in self.alloc();
            "the live thread {name} is in no group; add it to a group, to alone, to silent or to messages"
        )?;
        self.fault(Fault::Nowhere, Spot::Threads, words)
    }

    fn refuse_groupless(
        &self,
        rows: &[Derivation],
        actors: Actors<'_>,
        members: &[Member],
    ) -> Result<(), Refusal>
        ensures { IfOk result (λ _. list_all (λ (d : TheDerivation). spec.names_known (spec.is_known members.now actors.entry.silent.now actors.entry.messages.now) d.cap) rows.now ≡ true) }
    {
        if are_known(rows, members, actors) {
            return Ok(());
        }
        self.groupless(rows, actors, members)
    }

    /// That there is no group of a name.
    fn no_actor<T>(&self, names: &[String], name: &str, spot: Spot<'_>) -> Result<T, Refusal>
        ensures { IsErr result }
    {
        let names = texts(self.alloc(), names)?;
        let names = names.as_slice();
        let groups = names.get(..self.file.groups.len()).unwrap_or(names);
        let groups = groups.join(self.alloc(), ", ")?;
        let others = format!(in self.alloc(); "; the groups are {groups}")?;
        let question = did_you_mean(self.alloc(), name, names, others.as_str())?;
        let words = format!(in self.alloc(); "there is no group {name}{question}")?;
        self.fault(Fault::NoSuch, spot, words)
    }

    /// The number of a group or of a trusted thread.
    fn actor(&self, names: &[String], name: &str, spot: Spot<'_>) -> Result<u64, Refusal>
        ensures { IfOk result (λ actor. spec.actor_named names.now name.now ≡ Some actor) }
    {
        match actor_named(names, name) {
            Some(actor) => Ok(actor),
            None => self.no_actor(names, name, spot),
        }
    }

    /// The number of a group. No trusted thread takes from another, nor is anything taken from it.
    fn group(&self, names: &[String], name: &str, spot: Spot<'_>) -> Result<u64, Refusal>
        ensures { IfOk result (λ group. spec.group_named (length self.now.file.now.groups.items) names.now name.now ≡ Some group) }
    {
        let actor = self.actor(names, name, spot)?;
        if actor < self.file.groups.len() as u64 {
            return Ok(actor);
        }
        let words = format!(in self.alloc();
            "{name} is a trusted thread; takes are between groups"
        )?;
        self.fault(Fault::NoSuch, spot, words)
    }

    /// What an entry of `way` means.
    fn way(&self, names: &[String], way: &WayEntry) -> Result<PolicyWay, Refusal>
        ensures { IfOk result (λ w. spec.way_meant P.profile (names_view self.now.meaning.objects.names.now) self.now.meaning.setup.now.plan self.now.meaning.kernel.now names.now way.now ≡ Some w) }
    {
        let place = way.place;
        Ok(PolicyWay {
            from: self.actor(names, way.from.as_str(), Spot::Key(place, "from"))?,
            to: self.actor(names, way.to.as_str(), Spot::Key(place, "to"))?,
            endpoint: self.endpoint(&way.by, Spot::Key(place, "by"))?,
            badge: way.badge,
            rights: way.rights,
        })
    }

    fn ways(&self, names: &[String], entries: &[WayEntry]) -> Result<Vec<PolicyWay>, Refusal>
        ensures { IfOk result (λ v. all_of (spec.way_meant P.profile (names_view self.now.meaning.objects.names.now) self.now.meaning.setup.now.plan self.now.meaning.kernel.now names.now) entries.now ≡ Some v.items) }
    {
        let mut ways = Vec::new(self.alloc());
        for entry in entries {
            let way = self.way(names, entry)?;
            ways.push(way)?;
        }
        Ok(ways)
    }

    /// What an entry of `use` means.
    fn allowed(&self, names: &[String], entry: &UseEntry) -> Result<Allowance, Refusal>
        ensures { IfOk result (λ u. spec.use_meant P.profile (names_view self.now.meaning.objects.names.now) self.now.meaning.setup.now.plan self.now.meaning.kernel.now names.now entry.now ≡ Some u) }
    {
        let place = entry.place;
        Ok(Allowance {
            actor: self.actor(names, entry.group.as_str(), Spot::Key(place, "group"))?,
            endpoint: self.endpoint(&entry.of, Spot::Key(place, "of"))?,
            badge: entry.badge,
            rights: entry.rights,
        })
    }

    fn uses(&self, names: &[String], entries: &[UseEntry]) -> Result<Vec<Allowance>, Refusal>
        ensures { IfOk result (λ v. all_of (spec.use_meant P.profile (names_view self.now.meaning.objects.names.now) self.now.meaning.setup.now.plan self.now.meaning.kernel.now names.now) entries.now ≡ Some v.items) }
    {
        let mut uses = Vec::new(self.alloc());
        for entry in entries {
            let allowed = self.allowed(names, entry)?;
            uses.push(allowed)?;
        }
        Ok(uses)
    }

    /// What an entry of `take` means.
    fn take(&self, names: &[String], take: &TakeEntry) -> Result<PolicyTake, Refusal>
        ensures { IfOk result (λ t. spec.take_meant (length self.now.file.now.groups.items) names.now take.now ≡ Some t) }
    {
        Ok(PolicyTake {
            from: self.group(names, take.from.as_str(), Spot::Key(take.place, "from"))?,
            to: self.group(names, take.to.as_str(), Spot::Key(take.place, "to"))?,
        })
    }

    fn takes(&self, names: &[String], entries: &[TakeEntry]) -> Result<Vec<PolicyTake>, Refusal>
        ensures { IfOk result (λ v. all_of (spec.take_meant (length self.now.file.now.groups.items) names.now) entries.now ≡ Some v.items) }
    {
        let mut takes = Vec::new(self.alloc());
        for entry in entries {
            let take = self.take(names, entry)?;
            takes.push(take)?;
        }
        Ok(takes)
    }

    /// The policy, where each of its words means something. The rows are the full slots of the state.
    ///
    /// # Errors
    /// `Memory`, or its first fault.
    pub fn policy(&self, rows: &[Derivation]) -> Result<Policy, Refusal>
        requires { map (derivation_view P.profile) rows.now ≡ slot_rows self.now.meaning.kernel.now }
        ensures { IfOk result (λ v. spec.IsPolicyMeant P.profile (names_view self.now.meaning.objects.names.now) self.now.meaning.setup.now.plan self.now.meaning.kernel.now self.now.file.now v) }
    {
        let file = self.file;
        let mut names = group_names(self.alloc(), file.groups.as_slice())?;
        let silent = self.trusted(&mut names, "silent", file.silent.as_slice(), &[])?;
        let messages = self.trusted(
            &mut names,
            "messages",
            file.messages.as_slice(),
            silent.as_slice(),
        )?;
        let actors = Actors {
            names: names.as_slice(),
            silent: silent.as_slice(),
            messages: messages.as_slice(),
        };
        let (members, regions) = self.groups(actors, rows, file.groups.as_slice())?;
        self.refuse_groupless(rows, actors, members.as_slice())?;
        let ways = self.ways(names.as_slice(), file.ways.as_slice())?;
        let uses = self.uses(names.as_slice(), file.uses.as_slice())?;
        let takes = self.takes(names.as_slice(), file.takes.as_slice())?;
        let allowances = allowances(self.alloc(), ways.as_slice(), uses.as_slice())?;
        Ok(Policy {
            version: file.version,
            actors: names,
            groups: group_numbers(self.alloc(), file.groups.len() as u64)?,
            members,
            silent,
            messages,
            regions,
            ways,
            uses,
            takes,
            allowances,
            grant: file.grant,
            calls: file.calls,
        })
    }
}

fn has_thread(members: &[Member], thread: u64) -> bool
    ensures { result ≡ spec.is_member thread members.now }
{
    for member in members {
        if member.thread == thread {
            return true;
        }
    }
    false
}

/// Whether a capability names no thread but one of a group, or one that is trusted.
fn names_known(members: &[Member], actors: Actors<'_>, cap: Cap) -> bool
    ensures { result ≡ spec.names_known (spec.is_known members.now actors.entry.silent.now actors.entry.messages.now) cap }
{
    match cap {
        Cap::Tcb { base } => has_thread(members, base) || actors.is_trusted(base),
        _ => true,
    }
}

/// Whether full slots name no thread but those of groups, and those that are trusted.
fn are_known(rows: &[Derivation], members: &[Member], actors: Actors<'_>) -> bool
    ensures { result ≡ list_all (λ (d : TheDerivation). spec.names_known (spec.is_known members.now actors.entry.silent.now actors.entry.messages.now) d.cap) rows.now }
{
    for row in rows {
        if !names_known(members, actors, row.cap) {
            return false;
        }
    }
    true
}

/// What a way lets its receiver hold: Read with any badge.
fn receiver_entry(way: &PolicyWay) -> Allowance
    ensures { result ≡ entries.receiver_entry way.now }
{
    Allowance {
        actor: way.to,
        endpoint: way.endpoint,
        badge: 0,
        rights: Rights::READ,
    }
}

/// What ways and uses let groups hold: of each way its sender, and then its receiver, who may have Read with any badge.
fn allowances(
    alloc: Global,
    ways: &[PolicyWay],
    uses: &[Allowance],
) -> Result<Vec<Allowance>, AllocError>
    ensures { IfOk result (λ v. v.items ≡ entries.allowances_of ways.now uses.now) }
{
    let mut all = Vec::new(alloc);
    for way in ways {
        all.push(sender_entry(way))?;
    }
    for way in ways {
        all.push(receiver_entry(way))?;
    }
    all.extend_from_slice(uses)?;
    Ok(all)
}
