//! The live sessions, and the identifiers that were ever given.
ghost use Rattle.std.specs.Prelude.{◌≡◌, ◌<◌, ◌≤◌, ◌++◌, ◌∷◌, [], length, slice_get, nat_eq, None, OnOk, is_some, ℕ, List, bytes_eq, cond, string_bytes};
ghost use Rattle.std.specs.Map.{lookup, remove_entry};
ghost use Rattle.std.specs.Map.Iter.{ShowsInOrder, deref_pair};
ghost use Rattle.session_table.specs.declared.session.Session.{Session};
ghost use Rattle.std.specs.Option.{option_copied, option_map};
ghost use Rattle.indexmap.specs.IndexMap.{spare};
ghost use Rattle.session_table.specs.Answers.{IsNew};
ghost use Rattle.session_table.specs.Creates.{name_of};
ghost use Rattle.session_table.specs.Distinct.{with_name, IsNewName};
ghost use Rattle.session_table.specs.Finding.{has_name, id_by, id_named, id_of_kind, standing_at};
ghost use Rattle.command_words.specs.declared.session.SessionWord.TheVariants.{Identified};
ghost use Rattle.session_table.specs.Machine.{changed};
ghost use Rattle.session_table.specs.Standings.{change_by, new_session, with_report, with_standing};

use crate::change::{Change, change_standing};
use crate::create::Create;
use crate::kinds::same_kind;
use crate::name_map::NameMap;
use crate::session::Session;
use crate::standings::ended;
use command_words::{Identifier, SessionKind, SessionWord};
use indexmap::IndexMap;
use indexmap::map::Iter;
use mode_rules::CycleReport;
use session_control::Standing;
use std::alloc::{AllocError, Global};
use std::marker::Model;

/// The live sessions in order of creation, and the identifiers that were ever given.
#[derive(Drop)]
pub(crate) struct Sessions {
    live: IndexMap<u128, Session>,
    given: IndexMap<u128, SessionKind>,
    sync_names: NameMap,
    forward_names: NameMap,
}

impl Model for Sessions {
    ghost use Rattle.std.specs.Prelude.{min};
    ghost use Rattle.indexmap.specs.IndexMap.{spare};
    ghost use Rattle.session_table.specs.States.{SessionsState};
    ghost use Rattle.session_table.specs.Distinct.{AreKept};

    ghost Value = { SessionsState };

    ghost view = { λ s. record { live = s.live.entries; given = s.given.entries; room = min (min (spare s.live) (spare s.given)) (min s.sync_names.room s.forward_names.room) } };

    ghost invariant = { λ s. AreKept s.given.entries s.live.entries s.sync_names.names s.forward_names.names };
}

impl Sessions {
    /// No sessions. It takes no memory.
    pub(crate) fn new(alloc: Global) -> Sessions
        ensures live { result.live ≡ [] }
        ensures given { result.given ≡ [] }
    {
        Sessions {
            live: IndexMap::new(alloc),
            given: IndexMap::new(alloc),
            sync_names: NameMap::new(alloc),
            forward_names: NameMap::new(alloc),
        }
    }

    /// How many sessions are live.
    pub(crate) fn len(&self) -> usize
        ensures { result ≡ length self.now.live }
    {
        self.live.len()
    }

    /// The session that has the identifier.
    pub(crate) fn get(&self, id: u128) -> Option<&Session>
        ensures { option_copied result ≡ lookup (nat_eq id) self.now.live }
    {
        self.live.get(&id)
    }

    /// The session at this place in order of creation.
    pub(crate) fn at(&self, index: usize) -> Option<(&u128, &Session)>
        ensures { option_map (λ p. (p.0.now, p.1.now)) result ≡ slice_get self.now.live index }
    {
        self.live.get_index(index)
    }

    /// The sessions in order of creation, by their identifiers.
    pub(crate) fn iter(&self) -> Iter<'_, u128, Session>
        ensures rest { result ≡ self.now.live }
        ensures runs { ShowsInOrder (deref_pair {K = ℕ} {X = Session}) }
    {
        self.live.iter()
    }

    /// How the session stands that has the identifier.
    pub(crate) fn standing(&self, id: u128) -> Option<Standing>
        ensures { result ≡ standing_at id self.now.live }
    {
        match self.live.get(&id) {
            Some(session) => Some(session.standing),
            None => None,
        }
    }

    /// The kind of the session that was ever given the identifier.
    pub(crate) fn kind_given(&self, id: u128) -> Option<SessionKind>
        ensures { result ≡ lookup (nat_eq id) self.now.given }
    {
        self.given.get(&id).copied()
    }

    /// The identifier of the session of the kind that has the name.
    pub(crate) fn id_named(&self, kind: SessionKind, name: &str) -> Option<u128>
        ensures { result ≡ id_named kind name.now self.now.live }
    {
        match kind {
            SessionKind::Sync => self.sync_names.get(name),
            SessionKind::Forward => self.forward_names.get(name),
        }
    }

    /// The identifier, if a live session of the kind has it.
    pub(crate) fn id_of_kind(&self, kind: SessionKind, id: u128) -> Option<u128>
        ensures { result ≡ id_of_kind kind id self.now.live }
    {
        match self.live.get(&id) {
            Some(session) => {
                if same_kind(kind, session.row.create.kind()) {
                    Some(id)
                } else {
                    None
                }
            }
            None => None,
        }
    }

    /// The identifier, if it is of the kind, and a live session of the kind has it.
    pub(crate) fn identified(&self, kind: SessionKind, identifier: Identifier) -> Option<u128>
        ensures { result ≡ id_by kind (Identified identifier) self.now.live }
    {
        if same_kind(kind, identifier.kind) {
            self.id_of_kind(kind, identifier.id)
        } else {
            None
        }
    }

    /// The identifier of the session of the kind that a line names so.
    pub(crate) fn id_by(&self, kind: SessionKind, session: &SessionWord) -> Option<u128>
        ensures { result ≡ id_by kind session.now self.now.live }
    {
        match session {
            SessionWord::Identified(identifier) => self.identified(kind, *identifier),
            SessionWord::Named(name) => self.id_named(kind, name.as_str()),
        }
    }

    /// Makes room for one more session.
    pub(crate) fn reserve(&mut self) -> Result<(), AllocError>
        ensures live { self.new.live ≡ self.old.live }
        ensures given { self.new.given ≡ self.old.given }
        ensures ok { OnOk result (0 < self.new.room) }
    {
        self.live.reserve(1)?;
        self.given.reserve(1)?;
        self.sync_names.reserve()?;
        self.forward_names.reserve()
    }

    /// Adds a session whose name and identifier are new. `name` is its name, if it has one. It takes no memory.
    pub(crate) fn insert(&mut self, identifier: Identifier, create: Create, name: Option<String>)
        requires room { 0 < self.old.room }
        requires new { IsNew create identifier self.old.given self.old.live }
        requires name { option_map string_bytes name ≡ name_of create }
        ensures live { self.new.live ≡ self.old.live ++ (identifier.id, new_session identifier.id create) ∷ [] }
        ensures given { self.new.given ≡ self.old.given ++ (identifier.id, identifier.kind) ∷ [] }
    {
        let Identifier { kind, id } = identifier;
        push_given(&mut self.given, id, kind);
        push_live(&mut self.live, id, Session::new(id, create));
        match kind {
            SessionKind::Sync => add_name(&mut self.sync_names, name, id),
            SessionKind::Forward => add_name(&mut self.forward_names, name, id),
        }
    }

    /// Takes a session away. Its identifier stays given. It takes no memory.
    pub(crate) fn remove(&mut self, id: u128)
        ensures live { self.new.live ≡ remove_entry (nat_eq id) self.old.live }
        ensures given { self.new.given ≡ self.old.given }
    {
        match self.live.shift_remove(&id) {
            Some(session) => match session.row.create.kind() {
                SessionKind::Sync => take_name(&mut self.sync_names, session),
                SessionKind::Forward => take_name(&mut self.forward_names, session),
            },
            None => {}
        }
    }

    /// Changes a session's standing. It takes no memory.
    pub(crate) fn alter(&mut self, id: u128, change: Change)
        ensures live { self.new.live ≡ changed id (with_standing (change_by change)) self.old.live }
        ensures given { self.new.given ≡ self.old.given }
        ensures room { self.new.room ≡ self.old.room }
    {
        match self.live.get_mut(&id) {
            Some(session) => session.standing = change_standing(change, session.standing),
            None => {}
        }
    }

    /// Notes the report of a session's cycle, and says whether the session is live. It takes no memory.
    pub(crate) fn end(&mut self, id: u128, report: CycleReport) -> bool
        ensures noted { result ≡ is_some (lookup (nat_eq id) self.old.live) }
        ensures live { self.new.live ≡ changed id (with_report report) self.old.live }
        ensures given { self.new.given ≡ self.old.given }
        ensures room { self.new.room ≡ self.old.room }
    {
        match self.live.get_mut(&id) {
            Some(session) => {
                note(session, report);
                true
            }
            None => false,
        }
    }
}

// Notes the report of a session's cycle.
fn note(session: &mut Session, report: CycleReport)
    ensures { session.new ≡ with_report report session.old }
{
    session.standing = ended(session.standing, report.outcome);
    session.report = Some(report);
}

// Adds an identifier that was never given.
fn push_given(given: &mut IndexMap<u128, SessionKind>, id: u128, kind: SessionKind)
    requires room { 0 < spare given.old }
    requires fresh { lookup (nat_eq id) given.old.entries ≡ None }
    ensures { given.new.entries ≡ given.old.entries ++ (id, kind) ∷ [] }
{
    match given.insert(id, kind) {
        Ok(_) => {}
        Err(_) => unreachable!(),
    }
}

// Adds a session whose identifier no live one has.
fn push_live(live: &mut IndexMap<u128, Session>, id: u128, session: Session)
    requires room { 0 < spare live.old }
    requires fresh { lookup (nat_eq id) live.old.entries ≡ None }
    ensures { live.new.entries ≡ live.old.entries ++ (id, session) ∷ [] }
{
    match live.insert(id, session) {
        Ok(_) => {}
        Err(_) => unreachable!(),
    }
}

// Adds a session's name, if it has one.
fn add_name(names: &mut NameMap, name: Option<String>, id: u128)
    requires room { 0 < names.old.room }
    requires new { IsNewName (option_map string_bytes name) names.old.names }
    ensures { names.new.names ≡ with_name names.old.names (option_map string_bytes name) id }
{
    match name {
        Some(name) => names.insert(name, id),
        None => {}
    }
}

// Takes away the name of a session that ends, if it has one.
fn take_name(names: &mut NameMap, session: Session)
    ensures { (q : List ℕ) → lookup (bytes_eq q) names.new.names ≡ cond (has_name q (name_of session.row.create)) None (lookup (bytes_eq q) names.old.names) }
{
    match session.row.create.name() {
        Some(name) => names.remove(name.as_str()),
        None => {}
    }
}
