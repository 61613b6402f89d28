//! Entries that become durable together.

ghost use Rattle.std.specs.Prelude.{◌≡◌, ◌↔◌, ◌≤◌, ◌<◌, ◌++◌, ◌∷◌, [], length, OnOk, OnErr, IfErr, IsOk};
ghost use Rattle.cc_node_state.specs.Sides.{batch_limit, record_limit, events_spelling};
ghost use Rattle.cc_node.specs.Node.{after, line};
ghost use Rattle.cc_journal.specs.Batches.{AreLawful, events_in};
ghost use Rattle.cc_journal.specs.Outlet.{Puts};

use crate::entry::Entry;
use crate::outlet::put_entry;
use arrayvec::ArrayVec;
use cc_node::Node;
use cc_site::Site;
use cc_wire::event_len;
use std::marker::Model;

/// Entries that become durable together, in the order in which they were accepted: at most 64, and as many as one record
/// takes.
#[derive(Drop)]
pub struct Batch {
    entries: ArrayVec<Entry, { Self::MAX_ENTRIES }>,
    // How many bytes the record of these entries has behind its length.
    size: usize,
}

impl Model for Batch {
    ghost use Rattle.std.specs.Prelude.{List};
    ghost use Rattle.cc_journal.specs.declared.entry.Entry.{Entry as EntryValue};
    ghost use Rattle.cc_journal.specs.Batches.{FitsRecord};
    ghost use Rattle.cc_journal.specs.Codes.{entries_code};

    ghost Value = { List EntryValue };

    ghost coded = { entries_code };

    ghost view = { λ b. b.entries.items };

    ghost invariant = { λ b. FitsRecord b.entries.items b.size };
}

// How many bytes a count has, and the size of an event.
const COUNT: usize = 1;

const SIZE: usize = 4;

impl Batch {
    /// How many entries a batch has at most.
    pub const MAX_ENTRIES: usize = 64;

    /// How many bytes a record has at most behind its length.
    pub const MAX_BYTES: usize = 262_144;

    /// No entry.
    pub fn new() -> Self
        ensures { result ≡ [] }
    {
        Batch {
            entries: ArrayVec::new(),
            size: COUNT,
        }
    }

    /// One entry. A record takes any one event.
    pub fn of_one(entry: Entry) -> Self
        ensures { result ≡ entry ∷ [] }
    {
        let size = COUNT + SIZE + event_len(&entry.event);
        let mut entries = ArrayVec::new();
        entries.push(entry);
        Batch { entries, size }
    }

    /// Puts an entry behind the others. It is given back where there are 64 already, or where the record would have more
    /// than 262,144 bytes behind its length.
    pub fn push(&mut self, entry: Entry) -> Result<(), Entry>
        ensures ok { OnOk result (self.new ≡ self.old ++ entry ∷ []) }
        ensures err { OnErr result (self.new ≡ self.old) }
        ensures given_back { IfErr result (λ e. e ≡ entry) }
        ensures room { IsOk result ↔ ((length self.old < batch_limit) × (length (events_spelling (events_in (self.old ++ entry ∷ []))) ≤ record_limit)) }
    {
        let size = self.size + SIZE + event_len(&entry.event);
        if self.entries.is_full() || size > Self::MAX_BYTES {
            return Err(entry);
        }
        self.entries.push(entry);
        self.size = size;
        Ok(())
    }

    /// Gives all entries up.
    pub fn clear(&mut self)
        ensures { self.new ≡ [] }
    {
        self.entries.clear();
        self.size = COUNT;
    }

    // Takes the entries out and into the node, and puts the outputs of each in turn.
    pub(crate) fn put_outputs<S: Site>(&mut self, node: &mut Node, site: &mut S)
        requires { AreLawful node.old self.old }
        ensures empties { self.new ≡ [] }
        ensures node { node.new ≡ after node.old (events_in self.old) }
        ensures puts { Puts S.Site (line node.old (events_in self.old)) site.old site.new }
    {
        self.size = COUNT;
        for entry in self.entries.drain(..) {
            put_entry(node, site, entry);
        }
    }

    /// How many entries there are.
    pub fn len(&self) -> usize
        ensures len { result ≡ length self.now }
        ensures fits { result ≤ batch_limit }
    {
        self.entries.len()
    }

    /// The entries, in their order.
    pub fn entries(&self) -> &[Entry]
        ensures entries { result.now ≡ self.now }
        ensures few { length result.now ≤ batch_limit }
        ensures fits { length (events_spelling (events_in result.now)) ≤ record_limit }
    {
        self.entries.as_slice()
    }

    /// How many bytes their record has behind its length.
    pub fn size(&self) -> usize
        ensures size { result ≡ length (events_spelling (events_in self.now)) }
        ensures fits { result ≤ record_limit }
    {
        self.size
    }
}
