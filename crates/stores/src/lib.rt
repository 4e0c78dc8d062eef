// The two lent stores together: the check that both are sound, in a time that grows with their bytes, and where a variable stands in them.
// The check's filter has one byte for each slot of a hash; a record is searched for only where its slot does not rule out that its variable was seen.
#![tactic(auto)]

ghost use Rattle.std.specs.Prelude.{◌≡◌, ◌++◌, [], true, false, ◌<◌, length};
ghost use Rattle.slices.specs.Filter.{joined};
ghost use Rattle.slices.specs.Chunks.{contains, distinct};
ghost use Rattle.store.specs.Record.{variable_of, is_of, same_variable};
ghost use Rattle.store.specs.Store.{records_of, end_of};
ghost use Rattle.store.specs.Parts.{variable, HeaderFits};
ghost use Rattle.stores.specs.Pair.{sound_alone, ends_of, pair_check};
ghost use Rattle.stores.specs.Filter.{slots, hash_of, slot_of, fingerprint_of, Filter, scanned};
ghost use Rattle.stores.specs.Place.{place_in, is_somewhere, attributes_at, payload_at, bounds_at, Within};

mod lookup;
mod sound;
mod walked;

pub use lookup::Lookup;
pub use sound::Stores;
use store::{Bounds, Found};
use walked::Walked;

// The slots of the filter; `specs/Filter.antt` has the same for the proofs.
const SLOTS: usize = 8192;

// Where the records of two stores end.
#[derive(Clone, Copy)]
pub struct Ends {
    pub nv: usize,
    pub vol: usize,
}

// A hash of the namespace and the name of a record.
pub fn hash(r: &[u8]) -> usize
    requires { HeaderFits r.now }
    ensures { result ≡ hash_of (variable_of r.now) }
{
    let h = slices::hash(slices::hash(0, store::namespace_of(r)), store::name_of(r));
    h % 4294967296 * 2654435761
}

pub fn slot(h: usize) -> usize
    ensures value { result ≡ slot_of h }
    ensures upper_bound { result < slots }
{
    h / 524288 % SLOTS
}

// 1 to 254.
fn fingerprint(h: usize) -> u8
    ensures { result ≡ fingerprint_of h }
{
    (h / 4294967296 % 254 + 1) as u8
}

// What a slot that held v holds after a record with this fingerprint: the fingerprint, or 255 for several.
fn joined(v: u8, fingerprint: u8) -> u8
    ensures { result ≡ joined v fingerprint }
{
    if v == 0 { fingerprint } else { 255 }
}

// Whether the record r has a variable of one of two stores.
fn is_repeated(r: &[u8], others: Walked<'_>, own: Walked<'_>) -> bool
    requires { HeaderFits r.now }
    ensures { result ≡ contains (same_variable r.now) (records_of others.entry.nonvolatile others.entry.s.now ++ records_of own.entry.nonvolatile own.entry.s.now) }
{
    let namespace = store::namespace_of(r);
    let name = store::name_of(r);
    others.has(namespace, name) | own.has(namespace, name)
}

// Walks the records of s behind those of another store, which the filter t has, and answers where they end. No variable may stand twice: there is no answer then.
// The filter then has both.
fn scan(s: &[u8], nonvolatile: bool, others: Walked<'_>, t: &mut [u8; SLOTS]) -> Option<usize>
    requires { (distinct same_variable (records_of others.nonvolatile others.s.now) ≡ true) × Filter t.old (records_of others.nonvolatile others.s.now) }
    ensures answer { result ≡ scanned nonvolatile s.now (records_of others.entry.nonvolatile others.entry.s.now) }
    ensures filter { distinct same_variable (records_of others.entry.nonvolatile others.entry.s.now ++ records_of nonvolatile s.now) ≡ true
        → Filter t.new (records_of others.entry.nonvolatile others.entry.s.now ++ records_of nonvolatile s.now) }
{
    let mut at = 0;
    while let Some(n) = store::record_length(&s[at..], nonvolatile) {
        let next = at + n;
        let h = hash(&s[at..next]);
        let k = slot(h);
        let f = fingerprint(h);
        let v = t[k];
        if (v == 255) | (v == f) {
            let own = Walked {
                s: &s[..at],
                nonvolatile,
                end: at,
            };
            if is_repeated(&s[at..next], others, own) {
                return None;
            }
        }
        t[k] = joined(v, f);
        at = next;
    }
    Some(at)
}

// No record of the non-volatile store.
fn no_records(nv: &[u8]) -> Walked<'_>
    ensures { records_of result.nonvolatile result.s.now ≡ [] }
{
    Walked {
        s: &nv[..0],
        nonvolatile: true,
        end: 0,
    }
}

// A filter that has no record.
fn empty() -> [u8; SLOTS]
    ensures { length result ≡ slots }
{
    [0u8; SLOTS]
}

// The check for 10 of both stores: where their records end, if the pair is sound.
pub fn check(nv: &[u8], vol: &[u8]) -> Option<Ends>
    ensures { result ≡ pair_check nv.now vol.now }
{
    if limits::MAX_STORE < nv.len() {
        return None;
    }
    if limits::MAX_STORE < vol.len() {
        return None;
    }
    let mut t = empty();
    let nv_end = scan(nv, true, no_records(nv), &mut t)?;
    let walked = Walked {
        s: nv,
        nonvolatile: true,
        end: nv_end,
    };
    let vol_end = scan(vol, false, walked, &mut t)?;
    let free = slices::all_are(&nv[nv_end..], 255) & slices::all_are(&vol[vol_end..], 255);
    free.then_some(Ends {
        nv: nv_end,
        vol: vol_end,
    })
}

// The check of the non-volatile store alone: what power-on asks.
pub fn check_alone(nv: &[u8]) -> bool
    ensures { result ≡ sound_alone nv.now }
{
    if limits::MAX_STORE < nv.len() {
        return false;
    }
    let mut t = empty();
    let Some(end) = scan(nv, true, no_records(nv), &mut t) else {
        return false;
    };
    slices::all_are(&nv[end..], 255)
}

// Which store holds a variable's record, and where it stands there; of an absent variable the volatile store.
// The store by a bool: every definition of a record and of a store takes `nonvolatile` as one, and an enum beside it is no plainer.
#[derive(Clone, Copy)]
pub struct Place {
    pub nonvolatile: bool,
    pub found: Option<Found>,
}

// Where the variable stands.
pub fn locate(nv: &[u8], vol: &[u8], ends: Ends, namespace: &[u8], name: &[u8]) -> Place
    requires { ends ≡ ends_of nv.now vol.now }
    ensures { result ≡ place_in nv.now vol.now (variable namespace.now name.now) }
{
    let in_nv = store::find_within(nv, true, ends.nv, namespace, name);
    if in_nv.is_some() {
        return Place {
            nonvolatile: true,
            found: in_nv,
        };
    }
    let in_vol = store::find_within(vol, false, ends.vol, namespace, name);
    Place {
        nonvolatile: false,
        found: in_vol,
    }
}

// Whether a place holds a record.
pub fn is_somewhere(place: Place) -> bool
    ensures { result ≡ is_somewhere place }
{
    place.found.is_some()
}

// The attributes of the record at a place; 0 where there is none.
pub fn attributes_at(nv: &[u8], vol: &[u8], place: Place) -> u32
    requires { Within nv.now vol.now place }
    ensures { result ≡ attributes_at nv.now vol.now place }
{
    if place.nonvolatile {
        store::attributes_found(nv, place.found)
    } else {
        store::attributes_found(vol, place.found)
    }
}

// Where the payload of the record at a place stands in the store that holds it; 0 and 0 where there is none.
pub fn payload_bounds(nv: &[u8], vol: &[u8], place: Place) -> Bounds
    requires { Within nv.now vol.now place }
    ensures { result ≡ bounds_at nv.now vol.now place }
{
    if place.nonvolatile {
        store::payload_bounds(nv, place.found)
    } else {
        store::payload_bounds(vol, place.found)
    }
}

// The payload of the record at a place, as a part of the store that holds it; an empty part where there is none.
pub fn payload_at<'a>(nv: &'a [u8], vol: &'a [u8], place: Place) -> &'a [u8]
    requires { Within nv.now vol.now place }
    ensures { result.now ≡ payload_at nv.now vol.now place }
{
    if place.nonvolatile {
        store::payload(nv, place.found)
    } else {
        store::payload(vol, place.found)
    }
}
