//! A batch is made durable.

ghost use Rattle.std.specs.Prelude.{max, ◌≡◌, ◌↔◌, ◌≤◌, ◌<◌, ◌+◌, ◌^◌, ◌++◌, length, List, ℕ, ◌⊎◌, OnOk, OnErr, IfOk, IfErr, MatchResult};
ghost use Rattle.cc_messages.specs.declared.event.Event.{Event};
ghost use Rattle.cc_site.specs.declared.site.Call.TheVariants.{Write, Sync};
ghost use Rattle.cc_site.specs.Sides.{other};
ghost use Rattle.cc_site.specs.Moments.{Rose};
ghost use Rattle.cc_node.specs.Node.{Node};
ghost use Rattle.cc_journal.specs.Batches.{events_in, batch_bytes};
ghost use Rattle.cc_journal.specs.Journals.{end_ahead, record_room, room_limit, KeepsGood, RestsFor, RestsNow};
ghost use Rattle.cc_flush.specs.Commits.{CommitStops};

use cc_journal::{Batch, Forfeit, Journal, Landed, zeros_ahead};
use cc_site::Site;

// How long a side that has `used` bytes is behind a record whose gate ends at `end`, with the zeros ahead of it.
pub(crate) fn length_after<S: Site>(used: u64, end: u64) -> u64
    requires { end < 2 ^ 62 }
    ensures length { result ≡ max used (end_ahead S.STRIDE used end) }
    ensures room { used < room_limit → ((result < room_limit) ↔ (end < room_limit)) }
{
    used.max(end + zeros_ahead(S::STRIDE, used, end))
}

// Writes a batch behind the records of a side that has so many bytes in use, makes sure of it, and lets it count.
pub(crate) fn make_durable<S: Site>(
    journal: &mut Journal,
    site: &mut S,
    batch: &Batch,
    used: u64,
) -> Result<Landed, Forfeit>
    requires within { S.honest site.old → journal.old.place + 1 ≤ length (S.state site.old journal.old.side).bytes }
    requires room { journal.old.place < room_limit }
    requires some { 1 ≤ length batch.now }
    ensures landed { IfOk result (λ landed. landed ≡ batch.now) }
    ensures ok { OnOk result (journal.new ≡ record { side = journal.old.side; place = journal.old.place + length (batch_bytes batch.now) }) }
    ensures err { OnErr result (journal.new ≡ journal.old) }
    ensures stops { S.honest site.old → OnErr result (CommitStops S.STRIDE used (S.state site.old journal.old.side) journal.old.place
        batch.now (S.state site.new journal.old.side)) }
    ensures honest { S.honest site.old ↔ S.honest site.new }
    ensures tells { (S.tells site.old ↔ S.tells site.new) × (S.sent site.new ≡ S.sent site.old) }
    ensures other_side { S.honest site.old → S.state site.new (other journal.old.side) ≡ S.state site.old (other journal.old.side) }
    ensures every_moment { S.honest site.old → (generation : ℕ)
        → KeepsGood S.Site (RestsFor S.Site (events_in batch.now) site.old journal.old generation) (events_in batch.now) site.old site.new }
    ensures at_rest { S.honest site.old → (generation : ℕ) (start : Node) (events : List Event) (opening : ℕ)
        → RestsFor S.Site (events_in batch.now) site.old journal.old generation start events opening
        → OnOk result (RestsNow S.Site site.new journal.new generation start (events ++ events_in batch.now) opening) }
    ensures length { S.honest site.old → OnOk result (length (S.state site.new journal.old.side).bytes
        ≡ max (length (S.state site.old journal.old.side).bytes) (end_ahead S.STRIDE used (journal.old.place + 1 + length (batch_bytes batch.now)))) }
    ensures short { OnOk result (length (batch_bytes batch.now) ≤ record_room) }
    ensures device { IfErr result (λ forfeit. (forfeit.fault.side ≡ journal.old.side) × ((forfeit.fault.call ≡ Write) ⊎ (forfeit.fault.call ≡ Sync))) }
    ensures fault { MatchResult result (λ _. S.failures site.new ≡ S.failures site.old) (λ _. Rose (S.failures site.old) (S.failures site.new)) }
{
    let flight = journal.write(site, batch, used)?;
    journal.append(site, flight)
}
