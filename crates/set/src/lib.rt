// A set: what is decided of a request (steps 1 to 9), and what is then written (step 10 and deletions).
#![tactic(auto)]

ghost use Rattle.std.specs.Prelude.{◌≡◌, ◌∷◌, [], Bool, true, false, ◌+◌, eqb, leb, length};
ghost use Rattle.std.proofs.Math.Option.{Option};
ghost use Rattle.std.specs.Int.Bits.{bit_and};
ghost use Rattle.limits.specs.Limits.{trigger_namespace_at};
ghost use Rattle.slices.specs.Test.{◌and◌};
ghost use Rattle.slices.specs.Bytes.{Bytes, part, same};
ghost use Rattle.names.specs.Name.{variable};
ghost use Rattle.entry.specs.Entry.{well_formed, lock_of, entry_of};
ghost use Rattle.entry.specs.Entry.{rank as rank_of};
ghost use Rattle.policy.specs.Policy.{entries_of};
ghost use Rattle.policy.specs.Choice.{chosen};
ghost use Rattle.store.specs.Store.{end_of, place_of, without_variable, with_record};
ghost use Rattle.stores.specs.Pair.{sound, lookup};
ghost use Rattle.stores.specs.Place.{record_at, Within};
ghost use Rattle.rules.specs.Set.{exists, holds_value, locks, request_ground, ground_of, ground_by, shown, exit_protects, record_after, decision, decision_status, decision_store};
ghost use Rattle.rules.specs.Report.{report_of, no_report, report_for, report_by};
ghost use Rattle.rules.specs.Engine.{speaking};
ghost use Rattle.rules.specs.Stored.{Stored};
ghost use Rattle.rules.specs.declared.Ground.TheVariants.{AttributeGround};
ghost use Rattle.rules.specs.Decision.{Store};
ghost use Rattle.set.specs.Asked.{asked};
ghost use Rattle.set.specs.Known.{Knows};
ghost use Rattle.set.specs.Decided.{decided_by};
ghost use Rattle.set.specs.Writable.{found_in, Writable};

use entry::{Entry, LockRule, Packed, Trigger};
use policy::Entries;
use rules::{Change, Ground, Refusal, Report};
use status::Status;
use store::Found;
use stores::{Ends, Lookup, Place, Stores};
use switches::Switches;

mod located;
mod request;

pub use located::Located;
pub use request::Request;

// What a set has found out of sound stores: where the records end, and where the request's variable stands.
#[derive(Clone, Copy)]
pub struct Known {
    pub ends: Ends,
    pub place: Place,
}

// What is decided of a set, and what step 4 said.
#[derive(Clone, Copy)]
pub struct Decided {
    pub decision: Result<Change, Refusal>,
    pub report: Report,
}

// ---- Step 4.

fn size_allowed(min: u32, max: u32, length: usize) -> bool
    ensures { result ≡ (leb min length and leb length max) }
{
    if length < min as usize {
        return false;
    }
    length <= max as usize
}

// No required bit missing, no prohibited one set.
fn attributes_allowed(must: u32, cant: u32, attributes: u32) -> bool
    ensures { result ≡ (eqb (bit_and must attributes) must and eqb (bit_and cant attributes) 0) }
{
    if must & attributes != must {
        return false;
    }
    cant & attributes == 0
}

// Unless the request is a deletion: the size n against MinSize and MaxSize, then the request's attributes against those that the entry requires and prohibits.
fn request_ground(entry: Entry, n: usize, request: Request) -> Option<Ground>
    ensures { (e : Bytes) → entry ≡ entry_of e → result ≡ request_ground e n (asked request.entry) }
{
    if request.is_deletion() {
        return None;
    }
    if !size_allowed(entry.min_size, entry.max_size, n) {
        return Some(Ground::SizeGround);
    }
    if attributes_allowed(
        entry.attributes_must_have,
        entry.attributes_cant_have,
        request.attributes,
    ) {
        return None;
    }
    Some(Ground::AttributeGround)
}

// Whether a payload is that one byte.
pub fn is_value(payload: &[u8], value: u8) -> bool
    ensures { result ≡ same payload.now (value ∷ []) }
{
    if payload.len() != 1 {
        return false;
    }
    payload[0] == value
}

// Whether the trigger of an entry locks (RULES.md, 5): it is stored, and its payload is the one byte Value.
pub fn trigger_holds<L: Lookup>(e: &[u8], trigger: Trigger, stores: &L) -> bool
    requires { trigger.namespace ≡ trigger_namespace_at }
    ensures { result ≡ holds_value (L.found stores.now (variable
        (part trigger.namespace (trigger.namespace + 16) e.now)
        (part trigger.name trigger.name_end e.now))) trigger.value }
{
    let from = trigger.namespace;
    let namespace = slices::part(e, from, from + limits::NAMESPACE_BYTES);
    let name = slices::part(e, trigger.name, trigger.name_end);
    is_value(stores.payload_of(namespace, name), trigger.value)
}

// Whether the chosen entry locks the request's variable.
fn locks(e: &[u8], rule: LockRule, located: Located) -> bool
    requires { rule ≡ lock_of e.now }
    ensures { result ≡ locks e.now (lookup located.entry.stores.nv.now located.entry.stores.vol.now) (asked located.entry.request).variable }
{
    match rule {
        LockRule::NoLock => false,
        LockRule::LockNow => true,
        LockRule::LockOnCreate => stores::is_somewhere(located.place),
        LockRule::LockOnVarState(trigger) => trigger_holds(e, trigger, &located.stores),
    }
}

// The ground that an entry gives against the request: the size of the payload afterwards, the request's attributes, then the lock.
fn entry_ground(e: &[u8], located: Located) -> Option<Ground>
    requires { well_formed e.now ≡ true }
    ensures { result ≡ ground_of e.now (lookup located.entry.stores.nv.now located.entry.stores.vol.now) (asked located.entry.request) }
{
    let entry = Packed { bytes: e }.fields();
    let n = located.length_after();
    if let Some(ground) = request_ground(entry, n, located.request) {
        return Some(ground);
    }
    let rule = entry.lock;
    locks(e, rule, located).then_some(Ground::LockGround)
}

// ---- The report of step 4.

// No ground.
pub fn no_report() -> Report
    ensures { result ≡ no_report }
{
    Report {
        ground: None,
        place: 0,
        rank: 0,
        missing: 0,
        prohibited: 0,
        lowest: 0,
    }
}

// A ground that names no bits.
fn entry_report(ground: Ground, place: u32, rank: u32) -> Report
    ensures { result ≡ report_of (Some ground) place rank 0 0 0 }
{
    Report {
        ground: Some(ground),
        place,
        rank,
        missing: 0,
        prohibited: 0,
        lowest: 0,
    }
}

// The attribute ground, with the bits in which the attributes offend.
fn attribute_report(e: &[u8], place: u32, rank: u32, attributes: u32) -> Report
    requires { rank ≡ rank_of e.now }
    ensures { result ≡ report_for (Some AttributeGround) place e.now attributes }
{
    let must = slices::le32(e, limits::MUST_HAVE_AT);
    let cant = slices::le32(e, limits::CANT_HAVE_AT);
    Report {
        ground: Some(Ground::AttributeGround),
        place,
        rank,
        missing: bits::missing(must, attributes),
        prohibited: bits::prohibited(cant, attributes),
        lowest: bits::lowest(must, cant, attributes),
    }
}

// The report of a ground that the entry e, of that place and rank, gave.
fn report_for(ground: Option<Ground>, place: u32, rank: u32, e: &[u8], attributes: u32) -> Report
    requires { rank ≡ rank_of e.now }
    ensures { result ≡ report_for ground place e.now attributes }
{
    match ground {
        None => no_report(),
        Some(Ground::SizeGround) => entry_report(Ground::SizeGround, place, rank),
        Some(Ground::AttributeGround) => attribute_report(e, place, rank, attributes),
        Some(Ground::LockGround) => entry_report(Ground::LockGround, place, rank),
    }
}

// What the chosen entry says against the request: nothing where no entry is chosen or the engine is disabled.
fn report(entries: Entries, enabled: bool, located: Located) -> Report
    ensures { result ≡ report_by (ground_by (speaking enabled (chosen (entries_of entries.entry.bytes.now) (asked located.entry.request).variable))
        (lookup located.entry.stores.nv.now located.entry.stores.vol.now)
        (asked located.entry.request))
        (entries_of entries.entry.bytes.now) (chosen (entries_of entries.entry.bytes.now) (asked located.entry.request).variable) located.entry.request.attributes }
{
    if !enabled {
        return no_report();
    }
    let request = located.request;
    let Some(chosen) = policy::choose(entries, request.namespace, request.name) else {
        return no_report();
    };
    let at = chosen.at;
    let end = at + slices::get16(entries.bytes, at + limits::SIZE_AT);
    let e = &entries.bytes[at..end];
    let ground = entry_ground(e, located);
    let place = chosen.index as u32;
    report_for(ground, place, chosen.rank as u32, e, request.attributes)
}

// ---- Steps 5 to 9.

// Whether a read tells the record at a place and a deletion takes it: after exit, not without RT.
// It takes the two stores and no `Stores`, here and in `exit_protects`: that type would ask more of its callers, sound stores, and docs/ARCHITECTURE.md names it.
pub fn is_shown(exited: bool, nv: &[u8], vol: &[u8], place: Place) -> bool
    requires { Within nv.now vol.now place }
    ensures { result ≡ exists (shown exited (record_at nv.now vol.now place)) }
{
    if !stores::is_somewhere(place) {
        return false;
    }
    if !exited {
        return true;
    }
    store::has_rt(stores::attributes_at(nv, vol, place))
}

// Whether no deletion takes the record at a place: after exit, a record of the volatile store.
fn exit_protects(exited: bool, nv: &[u8], vol: &[u8], place: Place) -> bool
    requires { Within nv.now vol.now place }
    ensures { result ≡ exit_protects exited (record_at nv.now vol.now place) }
{
    if !exited {
        return false;
    }
    if !stores::is_somewhere(place) {
        return false;
    }
    !store::has_nv(stores::attributes_at(nv, vol, place))
}

// All steps, over sound stores and a valid policy record.
pub fn decide(entries: Entries, switches: Switches, located: Located) -> Decided
    ensures { result ≡ decided_by (entries_of entries.entry.bytes.now) switches located.entry.stores.nv.now located.entry.stores.vol.now (asked located.entry.request) }
{
    if let Err(status) = located.request.check(switches.exited) {
        return Decided {
            decision: Err(Refusal::ByStatus(status)),
            report: no_report(),
        };
    }
    let said = report(entries, switches.enabled, located);
    let ground = said.ground;
    let decision = match ground {
        None => located.decide_write(switches.exited),
        Some(ground) => Err(Refusal::ByGround(ground)),
    };
    Decided {
        decision,
        report: said,
    }
}

// The status of a decision.
pub fn status_of(decided: Result<Change, Refusal>) -> Status
    ensures { result ≡ decision_status decided }
{
    match decided {
        Ok(_) => Status::Success,
        Err(refusal) => Status::from(refusal),
    }
}

// ---- Step 10, and deletions.

// Takes the variable out of whichever of two sound stores holds it.
fn delete(nv: &mut [u8], vol: &mut [u8], known: Known, request: Request)
    requires { (sound nv.old vol.old ≡ true) × Knows known nv.old vol.old (asked request).variable }
    ensures nv_after { nv.new ≡ without_variable true nv.old (asked request.entry).variable }
    ensures vol_after { vol.new ≡ without_variable false vol.old (asked request.entry).variable }
{
    let place = known.place;
    let namespace = request.namespace;
    let name = request.name;
    if place.nonvolatile {
        store::remove(nv, true, known.ends.nv, place.found, namespace, name);
    } else {
        store::remove(vol, false, known.ends.vol, place.found, namespace, name);
    }
}

// Stores the request's payload in one store, joined to what is stored there by an append. (Kept out of the functions above, where its room for the joined payload
// would lie on the stack below the check of the stores.)
#[inline(never)]
fn put(s: &mut [u8], nonvolatile: bool, end: usize, found: Option<Found>, request: Request)
    requires { (end ≡ end_of nonvolatile s.old) × (found ≡ place_of nonvolatile s.old (asked request).variable)
        × Writable nonvolatile s.old (asked request) }
    ensures { s.new ≡ with_record nonvolatile s.old (asked request.entry).variable
        (record_after (found_in nonvolatile s.old (asked request.entry).variable)
        (asked request.entry)) }
{
    let namespace = request.namespace;
    let name = request.name;
    let payload = request.payload;
    let stored = (request.attributes % 8) as u8;
    if store::has_append(request.attributes) {
        store::append(s, nonvolatile, end, found, stored, namespace, name, payload);
    } else {
        store::write(s, nonvolatile, end, found, stored, namespace, name, payload);
    }
}

// Stores the request's payload in the store that the attributes name, of two sound stores.
fn put_variable(nv: &mut [u8], vol: &mut [u8], known: Known, request: Request)
    requires { (sound nv.old vol.old ≡ true) × Knows known nv.old vol.old (asked request).variable
        × Stored nv.old vol.old (lookup nv.old vol.old (asked request).variable) (asked request) }
    ensures nv_after { nv.new ≡ decision_store Store true nv.old (lookup nv.old vol.old (asked request.entry).variable)
        (asked request.entry) }
    ensures vol_after { vol.new ≡ decision_store Store false vol.old (lookup nv.old vol.old (asked request.entry).variable)
        (asked request.entry) }
{
    let found = known.place.found;
    if store::has_nv(request.attributes) {
        put(nv, true, known.ends.nv, found, request);
    } else {
        put(vol, false, known.ends.vol, found, request);
    }
}

// Does to two sound stores what is decided of the request.
pub fn carry_out(
    decided: Result<Change, Refusal>,
    nv: &mut [u8],
    vol: &mut [u8],
    known: Known,
    request: Request,
)
    requires { (sound nv.old vol.old ≡ true) × Knows known nv.old vol.old (asked request).variable
        × ((x : Bool) × (o : Option Bytes) × (decided ≡ decision x o nv.old vol.old (asked request))) }
    ensures nv_after { nv.new ≡ decision_store decided true nv.old (lookup nv.old vol.old (asked request.entry).variable)
        (asked request.entry) }
    ensures vol_after { vol.new ≡ decision_store decided false vol.old (lookup nv.old vol.old (asked request.entry).variable)
        (asked request.entry) }
{
    let Ok(change) = decided else {
        return;
    };
    match change {
        Change::Delete => delete(nv, vol, known, request),
        Change::Keep => (),
        Change::Store => put_variable(nv, vol, known, request),
    }
}
